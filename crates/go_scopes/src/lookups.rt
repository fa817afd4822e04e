//! Rules on the names that are looked up.

ghost use Rattle.std.specs.Prelude.{◌≡◌, map};
ghost use Rattle.std.specs.Option.{option_map};
ghost use Rattle.go_tree.specs.Lookups.{object_asked, lacks_meaning, is_unknown, is_import, is_other_member, is_no_call, is_initial};
ghost use Rattle.go_scopes_lookup.specs.Views.{place_of, meaning_view, asked_view};
ghost use Rattle.go_scopes.specs.LookupRules.{code_of, fails, place_by, places_by};
ghost use Rattle.go_scopes.specs.Noted.{noted};
ghost use Rattle.go_scopes.specs.Views.{failure_of};

use crate::failure::note;
use go_base::{Fault, FaultCode, Span};
use go_scopes_events::predeclared::is_unknown;
use go_scopes_lookup::asked::Asked;
use go_scopes_lookup::meaning::{Meaning, object_by};
use go_scopes_lookup::unit::same;
use go_tree::context::{Entity, Role};
use go_tree::object::{Object, Predeclared};

/// A rule on each name that is looked up.
#[derive(Clone, Copy, Debug, PartialEq, Eq)]
pub enum LookupRule {
    /// Each name is declared or predeclared (Go specification: Declarations and scope, Iota).
    Undeclared,
    /// No predeclared name stands outside the profile (Go specification: Predeclared identifiers).
    OutsideName,
    /// The one member of `fmt` is `Println` (Go specification: Qualified identifiers).
    OutsideMember,
    /// `fmt` stands as `fmt.Println` alone, and that is called (Go specification: Calls).
    NotCalled,
    /// The value of a package's variable names no function and no variable of the package (Go specification: Package
    /// initialization).
    Initialiser,
}

/// What the name means.
pub fn object_asked(a: &Asked<'_>) -> Option<Object>
    ensures { result ≡ object_asked (asked_view a.now) }
{
    object_by(a.name(), a.meaning)
}

/// Whether the name has no meaning; `iota` has one in constant declarations, which `constant` tells of.
fn lacks_meaning(constant: bool, name: &[u8], object: Option<Object>) -> bool
    ensures { result ≡ lacks_meaning constant name.now object }
{
    match object {
        None => !is_unknown(name),
        Some(Object::Predeclared(Predeclared::Iota)) => !constant,
        Some(_) => false,
    }
}

/// Whether it is a predeclared name outside the profile.
fn is_outside(name: &[u8], object: Option<Object>) -> bool
    ensures { result ≡ is_unknown name.now object }
{
    object.is_none() && is_unknown(name)
}

/// Whether it is the import.
pub fn is_import(object: Option<Object>) -> bool
    ensures { result ≡ is_import object }
{
    matches!(object, Some(Object::Import))
}

/// Whether it is the operand of another selector than that of `Println`.
fn is_other_member(role: Role, selected: &[u8]) -> bool
    ensures { result ≡ is_other_member role selected.now }
{
    match role {
        Role::Selected { .. } => !same(selected, b"Println"),
        _ => false,
    }
}

/// Whether it isn't the operand of a selector, or of that of `Println` where it isn't called.
fn is_no_call(role: Role, selected: &[u8]) -> bool
    ensures { result ≡ is_no_call role selected.now }
{
    match role {
        Role::Selected { called, .. } => !called && same(selected, b"Println"),
        _ => true,
    }
}

/// Whether it names a function or a variable.
fn is_initial(meaning: Option<Meaning<'_>>) -> bool
    ensures { result ≡ is_initial (option_map meaning_view meaning.entry) }
{
    let Some(meaning) = meaning else {
        return false;
    };
    match meaning.entry.source {
        Some(d) => match d.declaration.entity {
            Entity::Function | Entity::Variable => true,
            Entity::Constant | Entity::Type | Entity::Parameter => false,
        },
        None => false,
    }
}

/// The code of a fault against the rule.
fn code_of(rule: LookupRule) -> FaultCode
    ensures { result ≡ code_of rule }
{
    match rule {
        LookupRule::Undeclared => FaultCode::Undeclared,
        LookupRule::OutsideName | LookupRule::OutsideMember => FaultCode::Outside,
        LookupRule::NotCalled => FaultCode::NotAValue,
        LookupRule::Initialiser => FaultCode::Initialiser,
    }
}

/// Whether the name fails the rule.
fn fails(rule: LookupRule, a: &Asked<'_>) -> bool
    ensures { result ≡ fails rule (asked_view a.now) }
{
    match rule {
        LookupRule::Undeclared => lacks_meaning(a.lookup.constant, a.name(), object_asked(a)),
        LookupRule::OutsideName => is_outside(a.name(), object_asked(a)),
        LookupRule::OutsideMember => {
            is_import(object_asked(a)) && is_other_member(a.lookup.role.get(), a.selected())
        }
        LookupRule::NotCalled => {
            is_import(object_asked(a)) && is_no_call(a.lookup.role.get(), a.selected())
        }
        LookupRule::Initialiser => a.lookup.initial && is_initial(a.meaning),
    }
}

/// The bytes of a fault of the name against the rule.
fn place_of(rule: LookupRule, a: &Asked<'_>) -> Span
    ensures { place_of result ≡ place_by rule (asked_view a.now) }
{
    match rule {
        LookupRule::OutsideMember | LookupRule::NotCalled => a.whole(),
        LookupRule::Undeclared | LookupRule::OutsideName | LookupRule::Initialiser => a.place(),
    }
}

/// The earliest of a fault that may be there and those of the names that fail the rule.
pub fn note_lookups(rule: LookupRule, found: Option<Fault>, all: &[Asked<'_>]) -> Option<Fault>
    ensures { option_map failure_of result ≡ noted (option_map failure_of found) (code_of rule) (places_by rule (map asked_view all.now)) }
{
    let mut found = found;
    for a in all {
        found = note(found, fails(rule, a), code_of(rule), place_of(rule, a));
    }
    found
}
