//! The index of the present package.

ghost use Rattle.std.specs.Prelude.{◌≡◌, ◌≤◌, ◌+◌, Some, IfOk, OnOk};
ghost use Rattle.go_typed.specs.Contents.{Content as Whole};
ghost use Rattle.go_package_defs.specs.Checked.{IsChecked, IsCheckedPackage, texts_of};
ghost use Rattle.clone_classes.specs.Listing.{members_of};
ghost use Rattle.clone_replies.specs.Classes.{classes_in};
ghost use Rattle.window_index.specs.Holding.{HoldsPackage};
ghost use Rattle.clone_session.specs.Session.{IsIndexed, window_count};

use crate::laws::listings_follow_from_the_texts;
use crate::verdict::Verdict;
use alpha_hash_defs::window_hash::WindowHash;
use go_base::{Memory, Steps};
use go_typed::checked::Checked;
use go_typed::window::Class;
use std::alloc::Global;
use std::sync::ledger::Ledger;
use window_index::classes::classes;
use window_index::index::Index;
use window_index::package::index_of;

/// The index of the windows of a package that type-checks; none where a fault is reported.
///
/// # Errors
///
/// Want of memory.
pub fn indexed<H: WindowHash + Drop, L: Ledger>(
    alloc: Global,
    verdict: &Verdict,
    hash: H,
    min: u32,
    mass: u32,
    steps: &mut Steps<L>,
) -> Result<Option<Index<H>>, Memory>
    requires some { 1 ≤ min }
    requires at_most { min ≤ 32 }
    requires heavy { 1 ≤ mass }
    requires light { mass ≤ 1000 }
    ensures holds { IfOk result (IsIndexed H.number (record { fewest = min; least = mass }) (Some verdict.now)) }
    ensures entered { OnOk result (steps.new.entered ≡ steps.old.entered + window_count (record { fewest = min; least = mass }) (Some verdict.now)) }
{
    match verdict {
        Verdict::Good(package) => {
            let index = index_of(alloc, package.package(), hash, min, mass, steps)?;
            Ok(Some(index))
        }
        Verdict::Faulty(_) => Ok(None),
    }
}

/// The clone classes of a package that type-checks, from the index of its windows.
///
/// # Errors
///
/// Want of memory.
pub fn classes_of<H: WindowHash + Drop>(
    alloc: Global,
    checked: &Checked,
    index: &Index<H>,
) -> Result<Vec<Class>, Memory>
    requires checked { IsCheckedPackage checked.now }
    requires holds { HoldsPackage H.number checked.now index.now }
    ensures { IfOk result (λ cs. (c : Whole) → IsChecked (texts_of checked.now) c → members_of cs.items ≡ classes_in index.now.bounds c) }
{
    listings_follow_from_the_texts();
    let _count = checked.types().count();
    classes(alloc, checked, index)
}
