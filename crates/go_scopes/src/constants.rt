//! Specifications of constants that repeat a list.

ghost use Rattle.std.specs.Prelude.{◌≡◌, ◌≤◌, List, [], IfOk, length};
ghost use Rattle.std.specs.Option.{option_map};
ghost use Rattle.go_base.specs.declared.fault.FaultCode.{FaultCode};
ghost use Rattle.go_tree.specs.declared.event.Event.{Event};
ghost use Rattle.go_tree.specs.Constants.{is_repetition, hidden_at, hidden_lists};
ghost use Rattle.go_tree.specs.Units.{word, bytes_at};
ghost use Rattle.go_scopes_lookup.specs.Views.{units_view};
ghost use Rattle.go_scopes.specs.Lists.{KnowsLists};
ghost use Rattle.go_scopes.specs.Noted.{noted};
ghost use Rattle.go_scopes.specs.Views.{failure_of};

use crate::failure::note;
use crate::file_rule::{FileRule, note_files};
use crate::lists::{Lists, list_of};
use go_base::{Fault, FaultCode, Memory};
use go_scopes_lookup::kinds::is_package;
use go_scopes_lookup::unit::{Unit, bytes_at};
use go_tokens::tokens::Tokens;
use go_tree::event::{Declaration, Event};
use std::alloc::Global;

/// Whether it is the first name of a specification in a function that repeats a list.
fn is_repetition(declaration: &Declaration) -> bool
    ensures { result ≡ is_repetition declaration.now }
{
    !is_package(declaration.block)
        && declaration.column == 0
        && declaration.source != Some(declaration.statement)
}

/// The rule at one event of a file; `before` has what the events in front told of lists.
fn note_list<'a>(
    found: Option<Fault>,
    file: u32,
    tokens: &'a Tokens,
    before: &Lists<'a>,
    event: &Event,
) -> Option<Fault>
    ensures { (es : List Event) → KnowsLists before.now (word tokens.now) es → option_map failure_of result ≡ noted (option_map failure_of found) FaultCode.Outside (hidden_at (word tokens.now) (bytes_at file tokens.now) es event.now []) }
{
    match event {
        Event::Declaration(declaration) => {
            let fails = is_repetition(declaration) && before.is_hidden(list_of(declaration));
            let place = bytes_at(file, tokens, declaration.name);
            note(found, fails, FaultCode::Outside, place)
        }
        _ => found,
    }
}

/// No specification repeats a list of which a constant hides a name.
struct HiddenLists;

impl FileRule for HiddenLists {
    ghost use Rattle.go_base.specs.declared.fault.FaultCode.TheVariants as code;
    ghost use Rattle.go_tree.specs.Constants.{hidden_in};

    ghost code = { code.Outside };

    ghost places = { λ _. hidden_in };

    fn note_in(
        &self,
        alloc: Global,
        found: Option<Fault>,
        file: u32,
        unit: &Unit<'_>,
    ) -> Result<Option<Fault>, Memory> {
        let tokens = unit.tokens;
        let mut lists = Lists::new(alloc);
        let mut found = found;
        for event in &unit.events {
            found = note_list(found, file, tokens, &lists, event);
            lists.add(tokens, event)?;
        }
        Ok(found)
    }
}

/// No specification in a function repeats a list of which a constant hides a name (Go specification: Constant declarations).
pub fn hidden_lists(
    alloc: Global,
    found: Option<Fault>,
    units: &[Unit<'_>],
) -> Result<Option<Fault>, Memory>
    requires { length units.now ≤ 256 }
    ensures { IfOk result (λ f. option_map failure_of f ≡ noted (option_map failure_of found) FaultCode.Outside (hidden_lists (units_view units.now))) }
{
    note_files(alloc, &HiddenLists, found, units)
}
