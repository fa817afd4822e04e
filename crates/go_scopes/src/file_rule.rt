//! Rules on the events of each file by themselves.

ghost use Rattle.std.specs.Prelude.{◌≡◌, ◌≤◌, ℕ, List, IfOk, length};
ghost use Rattle.std.specs.Option.{option_map};
ghost use Rattle.go_base.specs.declared.fault.FaultCode.{FaultCode};
ghost use Rattle.go_tokens.specs.Tokens.{TokenList};
ghost use Rattle.go_tree.specs.declared.event.Event.{Event};
ghost use Rattle.go_tree.specs.Units.{Place};
ghost use Rattle.go_tree.specs.Failures.{of_files};
ghost use Rattle.go_scopes_lookup.specs.Views.{units_view};
ghost use Rattle.go_scopes.specs.Noted.{noted};
ghost use Rattle.go_scopes.specs.Views.{failure_of};

use go_base::{Fault, Memory};
use go_scopes_lookup::unit::Unit;
use std::alloc::Global;

/// A rule on the events of a file by themselves: its code, and the places where it fails.
pub trait FileRule {
    ghost code: { FaultCode };

    ghost places: { Self → ℕ → TokenList → List Event → List Place };

    /// The least of a fault that may be there and those of the file of this number.
    fn note_in(
        &self,
        alloc: Global,
        found: Option<Fault>,
        file: u32,
        unit: &Unit<'_>,
    ) -> Result<Option<Fault>, Memory>
        ensures { IfOk result (λ f. option_map failure_of f ≡ noted (option_map failure_of found) code (places self.now file unit.now.tokens.now unit.now.events.items)) };
}

/// The least of a fault that may be there and those of all files.
pub fn note_files<R: FileRule>(
    alloc: Global,
    rule: &R,
    found: Option<Fault>,
    units: &[Unit<'_>],
) -> Result<Option<Fault>, Memory>
    requires { length units.now ≤ 256 }
    ensures { IfOk result (λ f. option_map failure_of f ≡ noted (option_map failure_of found) R.code (of_files (R.places rule.now) 0 (units_view units.now))) }
{
    let mut found = found;
    for (file, unit) in units.iter().enumerate() {
        found = rule.note_in(alloc, found, file as u32, unit)?;
    }
    Ok(found)
}
