//! Constants and types that a window declares and that occur later.

ghost use Rattle.std.specs.Prelude.{◌≡◌, filter, nat_eq, nat_lt, IfOk};
ghost use Rattle.std.specs.HashSet as set;
ghost use Rattle.std.specs.List.{list_any};
ghost use Rattle.std.specs.Option.{option_map};
ghost use Rattle.clone_window.specs.Sameness.{sort_at, standing};
ghost use Rattle.go_typed.specs.Packages.{PackageView};
ghost use Rattle.param_choose.specs.Members.{occurs_later};
ghost use Rattle.escape_check.specs.Firsts.{first_where};
ghost use Rattle.escape_check.specs.Names.{uses_behind};
ghost use Rattle.escape_check.specs.Shown.{IsSound, member_view};

use crate::member::Member;
use crate::place::Place;
use crate::results::occurs_later;
use crate::rule::MemberRule;
use go_base::Memory;
use go_typed::checked::Checked;
use go_typed::func::TypedFunc;
use param_choose::assigned::set_of;
use param_choose::holes::is_fixed;
use param_choose::names::names_declared;
use std::alloc::{AllocError, Global};
use std::collections::HashSet;

/// A declared constant or type occurs later. The tokens behind a window are looked at only where one does.
pub(crate) struct Escapes;

impl MemberRule for Escapes {
    ghost use Rattle.escape_check.specs.Places.{sources_in};
    ghost use Rattle.escape_check.specs.Names.{escaping};

    ghost places = { λ _ p m. escaping (sources_in p) m };

    ghost knows = { λ _ _. Unit };

    fn place(
        &self,
        alloc: Global,
        checked: &Checked,
        member: &Member<'_>,
    ) -> Result<Option<Place>, Memory> {
        let names = names_declared(alloc, member.statements)?;
        let fixed = fixed_among(alloc, member.func, &names)?;
        if !any_later(member, &fixed) {
            return Ok(None);
        }
        let fixed = set_of(alloc, &fixed)?;
        match first_escape(member, &fixed) {
            Some(token) => Ok(Some(member.token_place(checked, token))),
            None => Ok(None),
        }
    }
}

/// The constants and types among locals.
fn fixed_among(alloc: Global, func: &TypedFunc, locals: &[u32]) -> Result<Vec<u32>, AllocError>
    ensures { IfOk result (λ v. v.items ≡ filter (λ n. nat_lt 1 (standing (sort_at func.now.locals n))) locals.now) }
{
    let mut fixed = Vec::new(alloc);
    for local in locals {
        if is_fixed(func, *local) {
            fixed.push(*local)?;
        }
    }
    Ok(fixed)
}

/// Whether one of these locals occurs behind the window.
fn any_later(member: &Member<'_>, locals: &[u32]) -> bool
    ensures { (p : PackageView) → IsSound p member.now → result ≡ list_any (occurs_later (member_view member.now)) locals.now }
{
    for local in locals {
        if occurs_later(member, *local) {
            return true;
        }
    }
    false
}

/// The first token behind the window that names one of these locals.
#[tactic(auto, using(crate::proofs::Uses::first_next, crate::proofs::Uses::none_left))]
fn first_escape(member: &Member<'_>, locals: &HashSet<u32>) -> Option<u32>
    ensures { result ≡ option_map (λ u. u.token) (first_where (λ u. set.contains nat_eq locals.now u.local) (uses_behind (member_view member.now))) }
{
    for token in member.upto..member.func.root().last {
        if let Some(local) = member.func.local_at(token) {
            if locals.contains(&local) {
                return Some(token);
            }
        }
    }
    None
}
