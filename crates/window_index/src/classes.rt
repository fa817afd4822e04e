//! The clone classes of a package from its index.

ghost use Rattle.std.specs.Prelude.{◌≡◌, IfOk};
ghost use Rattle.go_package_defs.specs.Checked.{IsCheckedPackage};
ghost use Rattle.clone_classes.specs.Listing.{listing_in, members_of};
ghost use Rattle.window_index.specs.Holding.{HoldsPackage};

use crate::index::Index;
use crate::laws::{groups_are_the_classes, windows_lie_in_order};
use alpha_hash_defs::window_hash::WindowHash;
use clone_classes::listed::listed;
use go_base::Memory;
use go_typed::checked::Checked;
use go_typed::window::Class;
use std::alloc::Global;

/// The clone classes of a package that type-checks, from an index that holds its windows: the same, in the same order, as by
/// comparing every window with every other.
///
/// # Errors
///
/// Want of memory.
pub fn classes<H: WindowHash + Drop>(
    alloc: Global,
    checked: &Checked,
    index: &Index<H>,
) -> Result<Vec<Class>, Memory>
    requires checked { IsCheckedPackage checked.now }
    requires holds { HoldsPackage H.number checked.now index.now }
    ensures { IfOk result (λ cs. members_of cs.items ≡ listing_in index.now.bounds checked.now) }
{
    groups_are_the_classes();
    windows_lie_in_order();
    let _bounds = index.bounds();
    let groups = index.groups(alloc)?;
    listed(alloc, checked, groups)
}
