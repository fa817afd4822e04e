//! Declared names that are spelled like a free local.

ghost use Rattle.std.specs.Prelude.{◌≡◌, ℕ, List, map, filter, IfOk};
ghost use Rattle.std.specs.List.{list_any};
ghost use Rattle.std.specs.Option.{option_map};
ghost use Rattle.go_tokens.specs.Spellings.{same_text};
ghost use Rattle.param_choose.specs.Locals.{declared_names};
ghost use Rattle.param_choose.specs.Shown.{variable_view};
ghost use Rattle.escape_check.specs.Names.{declaring_places};
ghost use Rattle.escape_check.specs.Places.{first_of, local_text, sources_in};
ghost use Rattle.escape_check.specs.Shown.{member_view, place_view};
ghost use Rattle.escape_check.specs.Texts.{AreTexts};

use crate::member::Member;
use crate::place::{Place, declaring_place};
use crate::rule::MemberRule;
use go_base::Memory;
use go_typed::checked::Checked;
use param_choose::names::names_declared;
use param_choose::variables::{Variable, free_locals};
use std::alloc::{AllocError, Global};
use std::collections::HashSet;

/// A declared name is spelled like a free local of the same window.
pub(crate) struct Shadowed;

impl MemberRule for Shadowed {
    ghost use Rattle.escape_check.specs.Places.{sources_in};
    ghost use Rattle.escape_check.specs.Names.{shadowing};

    ghost places = { λ _ p m. shadowing (sources_in p) m };

    ghost knows = { λ _ _. Unit };

    fn place(
        &self,
        alloc: Global,
        checked: &Checked,
        member: &Member<'_>,
    ) -> Result<Option<Place>, Memory> {
        let names = names_of(alloc, member)?;
        let free = free_locals(alloc, member.func, member.declared, member.extent())?;
        let texts = texts_of(alloc, checked, member, &free)?;
        Ok(first_among(checked, member, &texts, &names))
    }
}

/// The locals that a window's own statements declare, and not those in blocks inside it.
fn names_of(alloc: Global, member: &Member<'_>) -> Result<Vec<u32>, Memory>
    ensures { IfOk result (λ v. v.items ≡ declared_names (member_view member.now)) }
{
    Ok(names_declared(alloc, member.statements)?)
}

/// The names of variables of a member's function.
fn texts_of<'c>(
    alloc: Global,
    checked: &'c Checked,
    member: &Member<'_>,
    variables: &[Variable],
) -> Result<HashSet<&'c [u8]>, AllocError>
    ensures { IfOk result (λ texts. AreTexts texts (map (λ v. local_text (sources_in checked.entry.now) (member_view member.now) v.local) (map variable_view variables.now))) }
{
    let mut texts = HashSet::new(alloc);
    for variable in variables {
        texts.insert(member.local_text(checked, variable.local))?;
    }
    Ok(texts)
}

/// Where the first of some locals is declared whose name is among texts.
fn first_among(
    checked: &Checked,
    member: &Member<'_>,
    texts: &HashSet<&[u8]>,
    locals: &[u32],
) -> Option<Place>
    ensures { (ws : List (List ℕ)) → AreTexts texts.now ws
        → option_map place_view result ≡ first_of (declaring_places (member_view member.now) (filter (λ n. list_any (λ w. same_text w (local_text (sources_in checked.now) (member_view member.now) n)) ws) locals.now)) }
{
    for local in locals {
        if let Some(declared) = member.declared.get(*local as usize) {
            if (&*texts).contains(&member.local_text(checked, *local)) {
                return Some(declaring_place(*declared));
            }
        }
    }
    None
}
