//! The numbers of a package.

ghost use Rattle.std.specs.Prelude.{◌≡◌, ◌≤◌, IfOk};
ghost use Rattle.go_typed.specs.Contents.{Content};
ghost use Rattle.go_package_defs.specs.Checked.{IsChecked, IsCheckedPackage, texts_of};
ghost use Rattle.clone_replies.specs.Classes.{classes_in};
ghost use Rattle.clone_classes.specs.Listing.{members_of};
ghost use Rattle.clone_replies.specs.Numbers.{numbers_in};

use crate::count::{functions_with_body, total_bytes};
use crate::hashes::{distinct, hashes_of};
use crate::laws::numbers_follow_from_the_texts;
use crate::origins::all_placed;
use alpha_hash::alpha::AlphaHash;
use go_base::Memory;
use go_typed::checked::Checked;
use go_typed::window::Class;
use std::alloc::Global;

/// The numbers of a package that type-checks.
#[derive(Clone, Copy, Debug, PartialEq, Eq)]
pub struct Numbers {
    pub files: u32,
    /// The bytes of all files.
    pub bytes: u32,
    /// The functions that have a body.
    pub functions: u32,
    pub windows: u32,
    /// The distinct hashes of the windows.
    pub hashes: u64,
    /// The clone classes.
    pub classes: u32,
}

/// The numbers of a package with these clone classes. Windows have from `min` to 32 statements and at least this mass.
///
/// # Errors
///
/// Want of memory.
pub fn numbers_of(
    alloc: Global,
    checked: &Checked,
    min: u32,
    mass: u32,
    classes: &[Class],
) -> Result<Numbers, Memory>
    requires some { 1 ≤ min }
    requires at_most { min ≤ 32 }
    requires heavy { 1 ≤ mass }
    requires light { mass ≤ 1000 }
    requires checked { IsCheckedPackage checked.now }
    ensures { IfOk result (λ n. (c : Content) → IsChecked (texts_of checked.now) c → members_of classes.now ≡ classes_in (record { fewest = min; least = mass }) c
        → n ≡ numbers_in (record { fewest = min; least = mass }) (texts_of checked.now) c) }
{
    numbers_follow_from_the_texts();
    let _types = checked.types();
    all_placed(checked)?;
    let hashes = hashes_of(alloc, &AlphaHash, checked, min, mass)?;
    let files = number(checked.files().len())?;
    let bytes = total_bytes(checked.files())?;
    let functions = functions_with_body(checked.functions())?;
    let windows = number(hashes.len())?;
    let distinct = distinct(alloc, &hashes)?;
    let classes = number(classes.len())?;
    Ok(Numbers {
        files,
        bytes,
        functions,
        windows,
        hashes: distinct,
        classes,
    })
}

/// A count as a number of the reply.
fn number(count: usize) -> Result<u32, Memory>
    ensures { IfOk result (λ n. n ≡ count) }
{
    u32::try_from(count).map_err(|_| Memory)
}
