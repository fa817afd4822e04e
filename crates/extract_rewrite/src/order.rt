//! Edits in the order in which they are done.

ghost use Rattle.std.specs.Prelude.{◌≡◌, IfOk, List};
ghost use Rattle.std.specs.BTreeMap.{values};
ghost use Rattle.extract_rewrite.specs.Order.{by_place, from_the_end, AreKeyed};

use edit_apply::{Edit, Edits};
use go_base::Memory;
use std::alloc::Global;
use std::collections::BTreeMap;

/// Edits from the last file to the first, and those of a file from its end to its start. Of edits that begin at one place the
/// last one is kept; edits of ranges that don't overlap begin at different places.
///
/// # Errors
///
/// Want of memory.
pub fn from_the_end(alloc: Global, edits: Vec<Edit>) -> Result<Edits, Memory>
    ensures { IfOk result (λ e. e ≡ from_the_end edits.items) }
{
    let places = by_place(alloc, edits)?;
    let ordered = places.into_values().rev().collect(alloc)?;
    Ok(Edits::of(ordered))
}

/// Edits by the places where they begin.
fn by_place(alloc: Global, edits: Vec<Edit>) -> Result<BTreeMap<(u32, u32), Edit>, Memory>
    ensures { IfOk result (λ m. values m ≡ by_place edits.items) }
{
    let mut places = BTreeMap::new(alloc);
    for edit in edits {
        places.insert((edit.file, edit.start), edit)?;
    }
    Ok(places)
}
