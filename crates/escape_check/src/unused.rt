//! Declared results that nothing uses.

ghost use Rattle.std.specs.Prelude.{◌≡◌, ◌||◌, ◌++◌, ℕ, [], ◌∷◌, List, map, filter, nat_lt, IfOk, OnOk};
ghost use Rattle.std.specs.Option.{option_map};
ghost use Rattle.go_scopes_lookup.specs.Views.{asked_view};
ghost use Rattle.go_tree.specs.Lookups as rules;
ghost use Rattle.go_typed.specs.Packages.{PackageView};
ghost use Rattle.escape_check.specs.Lookups.{all_asked, is_left_unused, is_used_later};
ghost use Rattle.escape_check.specs.Names.{declaring_places};
ghost use Rattle.escape_check.specs.Places.{first_of, sources_in};
ghost use Rattle.escape_check.specs.Shown.{IsSound, member_view, place_view};
ghost use Rattle.escape_check.specs.Texts.{AreLastUses, end_in};

use crate::member::Member;
use crate::place::{Place, declaring_place};
use crate::results::{Declared, occurs_later};
use crate::rule::MemberRule;
use go_base::Memory;
use go_scopes_lookup::asked::Asked;
use go_scopes_lookup::meaning::object_by;
use go_tree::context::Role;
use go_tree::object::Object;
use go_typed::checked::Checked;
use std::alloc::{AllocError, Global};
use std::collections::HashMap;

/// For each local of a function of a file the number behind the last name that uses it, other than by an assignment to it.
pub(crate) type LastUses = HashMap<(u32, (usize, usize)), u64>;

/// A declared result occurs later in a member, but only as a bare left side of `=`, `:=` or `range`.
#[derive(Clone, Copy)]
pub(crate) struct LeftUnused<'a> {
    pub declared: Declared<'a>,
    pub ends: &'a LastUses,
}

impl MemberRule for LeftUnused<'_> {
    ghost use Rattle.std.specs.Prelude.{filter};
    ghost use Rattle.escape_check.specs.Lookups.{all_asked, is_left_unused};
    ghost use Rattle.escape_check.specs.Names.{declaring_places};
    ghost use Rattle.escape_check.specs.Places.{sources_in};
    ghost use Rattle.escape_check.specs.Shown.{KnowsPlaces, results_in};
    ghost use Rattle.escape_check.specs.Texts.{AreLastUses};

    ghost places = { λ rule p m. declaring_places m (filter (is_left_unused (sources_in p) m) (results_in rule.declared m)) };

    ghost knows = { λ rule p. AreLastUses rule.ends.now (all_asked (sources_in p)) × KnowsPlaces rule.declared };

    fn place(
        &self,
        alloc: Global,
        _checked: &Checked,
        member: &Member<'_>,
    ) -> Result<Option<Place>, Memory> {
        let locals = self.declared.in_member(alloc, member)?;
        Ok(first_unused(member, self.ends, &locals))
    }
}

/// Where the first of some locals is declared that occurs later, and that nothing uses there.
fn first_unused(member: &Member<'_>, ends: &LastUses, locals: &[u32]) -> Option<Place>
    ensures { (p : PackageView) → IsSound p member.now → AreLastUses ends.now (all_asked (sources_in p))
        → option_map place_view result ≡ first_of (declaring_places (member_view member.now) (filter (is_left_unused (sources_in p) (member_view member.now)) locals.now)) }
{
    for local in locals {
        if let Some(declared) = member.declared.get(*local as usize) {
            if is_left_unused(member, ends, *local) {
                return Some(declaring_place(*declared));
            }
        }
    }
    None
}

/// Whether a local occurs behind a member, and nothing uses it there.
fn is_left_unused(member: &Member<'_>, ends: &LastUses, local: u32) -> bool
    ensures { (p : PackageView) → IsSound p member.now → AreLastUses ends.now (all_asked (sources_in p)) → result ≡ is_left_unused (sources_in p) (member_view member.now) local }
{
    occurs_later(member, local) && !is_used_later(member, ends, local)
}

/// Whether a local is used behind a member.
fn is_used_later(member: &Member<'_>, ends: &LastUses, local: u32) -> bool
    ensures { (p : PackageView) → IsSound p member.now → AreLastUses ends.now (all_asked (sources_in p)) → result ≡ is_used_later (sources_in p) (member_view member.now) local }
{
    let key = (member.file, (member.window.func as usize, local as usize));
    match ends.get(&key) {
        Some(end) => u64::from(member.first) + u64::from(member.upto) < *end,
        None => false,
    }
}

/// Where the locals of the package are used last.
///
/// # Errors
///
/// Want of memory.
pub(crate) fn last_uses(alloc: Global, asked: &[Asked<'_>]) -> Result<LastUses, AllocError>
    ensures { IfOk result (λ ends. AreLastUses ends (map asked_view asked.now)) }
{
    let mut ends = HashMap::new(alloc);
    for name in asked {
        note_use(&mut ends, name)?;
    }
    Ok(ends)
}

/// Notes the local that a name uses.
fn note_use(ends: &mut LastUses, name: &Asked<'_>) -> Result<(), AllocError>
    ensures { OnOk result ((asks : List rules.Asked) → AreLastUses ends.old asks → AreLastUses ends.new (asks ++ asked_view name.now ∷ [])) }
{
    if is_assigned(name) {
        return Ok(());
    }
    if let Some(Object::Local { function, number }) = object_by(name.name(), name.meaning) {
        let key = (name.file, (function, number));
        let end = last_of(ends.get(&key).copied(), u64::from(name.lookup.name) + 1);
        ends.insert(key, end)?;
    }
    Ok(())
}

/// Whether a name is the bare left side of an assignment.
fn is_assigned(name: &Asked<'_>) -> bool
    ensures { result ≡ rules.is_assigned (asked_view name.now).it.role }
{
    matches!(name.lookup.role.get(), Role::Assigned)
}

/// The last of an end and one that may be there.
fn last_of(known: Option<u64>, end: u64) -> u64
    ensures { (token : ℕ) → nat_lt token result ≡ (nat_lt token (end_in known) || nat_lt token end) }
{
    match known {
        Some(known) => known.max(end),
        None => end,
    }
}
