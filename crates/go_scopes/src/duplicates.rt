//! Rules on fields, keys, parameters and defaults that stand twice.

ghost use Rattle.std.specs.Prelude.{◌≡◌, ◌≤◌, List, [], IfOk, length};
ghost use Rattle.std.specs.Option.{option_map};
ghost use Rattle.go_base.specs.declared.fault.FaultCode.{FaultCode};
ghost use Rattle.go_tokens.specs.Tokens.{TokenList};
ghost use Rattle.go_tree.specs.declared.event.Event.{Event};
ghost use Rattle.go_tree.specs.Units.{word};
ghost use Rattle.go_tree.specs.Duplicates.{is_duplicate, member_place, duplicates};
ghost use Rattle.go_scopes_lookup.specs.Views.{units_view};
ghost use Rattle.go_scopes.specs.Gathered.{Gathers};
ghost use Rattle.go_scopes.specs.Noted.{noted};
ghost use Rattle.go_scopes.specs.Views.{failure_of};

use crate::failure::note;
use crate::file_rule::{FileRule, note_files};
use crate::members::Members;
use go_base::{Fault, FaultCode, Memory};
use go_scopes_lookup::unit::{Unit, bytes_at, is_blank, word};
use go_tokens::tokens::Tokens;
use go_tree::event::{Event, Member};
use std::alloc::Global;

/// Whether the member may not stand behind others.
pub fn is_duplicate<'a>(member: Member, group: u32, name: &'a [u8], before: &Members<'a>) -> bool
    ensures { (ts : TokenList) → (es : List Event) → Gathers before.now ts es → result ≡ is_duplicate member group name.now ts es }
{
    match member {
        Member::Field => is_blank(name) || before.has(member, group, name),
        Member::Key => before.has(member, group, name),
        Member::Parameter => !is_blank(name) && before.has(member, group, name),
    }
}

/// The rule at one event of a file; `before` has the members of the events in front.
fn note_member<'a>(
    found: Option<Fault>,
    file: u32,
    tokens: &'a Tokens,
    before: &Members<'a>,
    event: &Event,
) -> Option<Fault>
    ensures { (es : List Event) → Gathers before.now tokens.now es → option_map failure_of result ≡ noted (option_map failure_of found) FaultCode.Duplicate (member_place es file tokens.now event.now []) }
{
    match event {
        Event::Member {
            member,
            group,
            name,
        } => {
            let fails = is_duplicate(*member, *group, word(tokens, *name), before);
            let place = bytes_at(file, tokens, *name);
            note(found, fails, FaultCode::Duplicate, place)
        }
        _ => found,
    }
}

/// No field is blank, and no field, key or parameter stands twice.
struct SecondMembers;

impl FileRule for SecondMembers {
    ghost use Rattle.std.specs.Prelude.{[]};
    ghost use Rattle.go_base.specs.declared.fault.FaultCode.TheVariants as code;
    ghost use Rattle.go_tree.specs.Duplicates.{second_members};

    ghost code = { code.Duplicate };

    ghost places = { λ _. second_members [] };

    fn note_in(
        &self,
        alloc: Global,
        found: Option<Fault>,
        file: u32,
        unit: &Unit<'_>,
    ) -> Result<Option<Fault>, Memory> {
        let tokens = unit.tokens;
        let mut members = Members::new(alloc);
        let mut found = found;
        for event in &unit.events {
            found = note_member(found, file, tokens, &members, event);
            members.add(tokens, event)?;
        }
        Ok(found)
    }
}

/// No `default` stands behind another one of its `switch`.
struct SecondDefaults;

impl FileRule for SecondDefaults {
    ghost use Rattle.go_base.specs.declared.fault.FaultCode.TheVariants as code;
    ghost use Rattle.go_tree.specs.Duplicates.{second_defaults};

    ghost code = { code.Duplicate };

    ghost places = { λ _. second_defaults };

    fn note_in(
        &self,
        _alloc: Global,
        found: Option<Fault>,
        file: u32,
        unit: &Unit<'_>,
    ) -> Result<Option<Fault>, Memory> {
        let mut found = found;
        for event in &unit.events {
            if let Event::SecondDefault { word } = event {
                let place = bytes_at(file, unit.tokens, *word);
                found = note(found, true, FaultCode::Duplicate, place);
            }
        }
        Ok(found)
    }
}

/// No field, key, parameter and `default` stands twice, and no field is blank (Go specification: Struct types, Composite
/// literals, Function types, Expression switches).
pub fn duplicates(
    alloc: Global,
    found: Option<Fault>,
    units: &[Unit<'_>],
) -> Result<Option<Fault>, Memory>
    requires { length units.now ≤ 256 }
    ensures { IfOk result (λ f. option_map failure_of f ≡ noted (option_map failure_of found) FaultCode.Duplicate (duplicates (units_view units.now))) }
{
    let members = note_files(alloc, &SecondMembers, found, units)?;
    Ok(note_files(alloc, &SecondDefaults, members, units)?)
}
