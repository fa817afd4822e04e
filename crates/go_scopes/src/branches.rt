//! Statements that may not stand where they do, and those that are too many.

ghost use Rattle.std.specs.Prelude.{◌≡◌, ◌≤◌, ◌+◌, Some, IfOk, IfErr, length, slice_get};
ghost use Rattle.std.specs.Option.{option_map};
ghost use Rattle.go_base.specs.declared.fault.FaultCode.{FaultCode};
ghost use Rattle.go_tree.specs.Branches.{misplaced, branches, statements, limit};
ghost use Rattle.go_scopes_lookup.specs.Views.{place_of, unit_view, units_view};
ghost use Rattle.go_scopes.specs.Noted.{noted};
ghost use Rattle.go_scopes.specs.Views.{failure_of};

use crate::failure::note;
use crate::file_rule::{FileRule, note_files};
use go_base::{Fault, FaultCode, Memory, Span};
use go_scopes_lookup::unit::{Unit, bytes_of};
use go_tree::event::Event;
use std::alloc::Global;

/// The statements that a package may have.
const MOST: usize = 65536;

/// Each `break`, `continue` and `fallthrough` stands where it may.
struct MisplacedStatements;

impl FileRule for MisplacedStatements {
    ghost use Rattle.go_base.specs.declared.fault.FaultCode.TheVariants as code;

    ghost code = { code.Branch };

    ghost places = { λ _. misplaced };

    fn note_in(
        &self,
        _alloc: Global,
        found: Option<Fault>,
        file: u32,
        unit: &Unit<'_>,
    ) -> Result<Option<Fault>, Memory> {
        let mut found = found;
        for event in &unit.events {
            if let Event::Misplaced { first, last } = event {
                let place = bytes_of(file, unit.tokens, *first, *last);
                found = note(found, true, FaultCode::Branch, place);
            }
        }
        Ok(found)
    }
}

/// Each `break`, `continue` and `fallthrough` stands where it may (Go specification: Break statements, Continue statements,
/// Fallthrough statements).
pub fn branches(
    alloc: Global,
    found: Option<Fault>,
    units: &[Unit<'_>],
) -> Result<Option<Fault>, Memory>
    requires { length units.now ≤ 256 }
    ensures { IfOk result (λ f. option_map failure_of f ≡ noted (option_map failure_of found) FaultCode.Branch (branches (units_view units.now))) }
{
    note_files(alloc, &MisplacedStatements, found, units)
}

/// The statement behind the first `skip` ones of a file, or how many are left to skip.
fn nth_statement(skip: usize, file: u32, unit: &Unit<'_>) -> Result<Span, usize>
    ensures there { IfOk result (λ span. slice_get (statements file (unit_view unit.now).tokens (unit_view unit.now).events) skip ≡ Some (place_of span)) }
    ensures left { IfErr result (λ left. left + length (statements file (unit_view unit.now).tokens (unit_view unit.now).events) ≡ skip) }
{
    let mut left = skip;
    for event in &unit.events {
        if let Event::Statement { first, last } = event {
            if left == 0 {
                return Ok(bytes_of(file, unit.tokens, *first, *last));
            }
            left -= 1;
        }
    }
    Err(left)
}

/// A package has at most 65,536 statements in statement lists.
pub fn limit(found: Option<Fault>, units: &[Unit<'_>]) -> Option<Fault>
    requires { length units.now ≤ 256 }
    ensures { option_map failure_of result ≡ noted (option_map failure_of found) FaultCode.Limit (limit (units_view units.now)) }
{
    let mut left = MOST;
    for (file, unit) in units.iter().enumerate() {
        match nth_statement(left, file as u32, unit) {
            Ok(span) => return note(found, true, FaultCode::Limit, span),
            Err(rest) => left = rest,
        }
    }
    found
}
