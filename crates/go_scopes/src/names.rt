//! What any name means at any place of a package.

ghost use Rattle.std.specs.Prelude.{◌≡◌, ◌≤◌, ℕ, IfOk, length, map};
ghost use Rattle.go_scopes_events.specs.Scopes.{locals_of, AreNested, AreOrderly};
ghost use Rattle.go_tree.specs.Meanings.{meanings};
ghost use Rattle.go_scopes_lookup.specs.Views.{units_view, entry_view};

use go_base::Memory;
use go_scopes_lookup::found::{all_found, new_among};
use go_scopes_lookup::meaning::{Entry, entries};
use go_scopes_lookup::unit::Unit;
use std::alloc::Global;

/// What the imports and the declarations of a package mean. `go_scopes_named::by_name` makes a table of them that answers what a name means
/// at a token, whether or not the name stands there. The files are numbered from 0 by their places.
///
/// # Errors
///
/// Want of memory.
pub fn entries_of<'a>(alloc: Global, units: &'a [Unit<'a>]) -> Result<Vec<Entry<'a>>, Memory>
    requires few { length units.now ≤ 256 }
    requires orderly { AreOrderly (units_view units.now) }
    ensures entries { IfOk result (λ v. map entry_view v.items ≡ meanings (units_view units.entry.now)) }
    ensures nested { IfOk result (λ v. (n : ℕ) → AreNested (locals_of n (map entry_view v.items))) }
{
    let all = all_found(alloc, units)?;
    let declared = new_among(alloc, &all)?;
    entries(alloc, units, &declared)
}
