//! The index of a package.

ghost use Rattle.std.specs.Prelude.{◌≡◌, ◌≤◌, ◌+◌, [], length, IfOk, OnOk};
ghost use Rattle.clone_window.specs.Bodies.{bodies_of, same_in};
ghost use Rattle.clone_classes.specs.Listing.{windows_of_all};
ghost use Rattle.alpha_hash_defs.specs.Sharing.{numbered};
ghost use Rattle.window_index.specs.Counting.{rivals};
ghost use Rattle.window_index.specs.Holding.{HoldsPackage};

use crate::index::Index;
use alpha_hash_defs::window_hash::WindowHash;
use go_base::{Memory, Steps};
use go_typed::checked::Checked;
use std::alloc::Global;
use std::sync::ledger::Ledger;

/// An index that holds the windows of a package of `min` to 32 statements whose mass is at least `mass`, each once. A window is
/// compared with one window of each group under its hash and with no other.
///
/// # Errors
///
/// Want of memory.
pub fn index_of<H: WindowHash + Drop, L: Ledger>(
    alloc: Global,
    checked: &Checked,
    hash: H,
    min: u32,
    mass: u32,
    steps: &mut Steps<L>,
) -> Result<Index<H>, Memory>
    requires some { 1 ≤ min }
    requires at_most { min ≤ 32 }
    requires heavy { 1 ≤ mass }
    requires light { mass ≤ 1000 }
    ensures holds { IfOk result (HoldsPackage H.number checked.now) }
    ensures asked { IfOk result (λ i. (i.hash ≡ hash) × (i.bounds ≡ record { fewest = min; least = mass })) }
    ensures entered { OnOk result (steps.new.entered ≡ steps.old.entered + length (windows_of_all (record { fewest = min; least = mass }) 0 (bodies_of checked.now.functions))) }
    ensures at_most { steps.new.entered ≤ steps.old.entered + length (windows_of_all (record { fewest = min; least = mass }) 0 (bodies_of checked.now.functions)) }
    ensures compared { steps.new.compared ≤ steps.old.compared
        + rivals (same_in checked.now) (numbered (H.number hash checked.now) (windows_of_all (record { fewest = min; least = mass }) 0 (bodies_of checked.now.functions))) [] }
    ensures checked { steps.new.checked ≡ steps.old.checked }
{
    let _types = checked.types();
    let mut index = Index::new(alloc, hash, min, mass);
    for f in checked.functions() {
        index.enter(alloc, checked, f.number(), steps)?;
    }
    Ok(index)
}
