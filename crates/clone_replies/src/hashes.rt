//! The hashes of the windows of a package.

ghost use Rattle.std.specs.Prelude.{◌≡◌, ◌≤◌, ◌++◌, map, nat_eq, IfOk, OnOk};
ghost use Rattle.std.specs.HashSet as set;
ghost use Rattle.std.specs.Set.{distinct_count};
ghost use Rattle.clone_window.specs.Bodies.{bodies_of};
ghost use Rattle.clone_classes.specs.Listing.{windows_of_all};
ghost use Rattle.alpha_hash_defs.specs.Sharing.{windows_of_func};

use alpha_hash_defs::window_hash::WindowHash;
use go_base::Memory;
use go_typed::checked::Checked;
use go_typed::window::Window;
use std::alloc::{AllocError, Global};
use std::collections::HashSet;

/// The hashes of the windows of a package, in the order of the windows.
///
/// # Errors
///
/// Want of memory.
pub fn hashes_of<H: WindowHash>(
    alloc: Global,
    hash: &H,
    checked: &Checked,
    min: u32,
    mass: u32,
) -> Result<Vec<u64>, Memory>
    requires some { 1 ≤ min }
    requires at_most { min ≤ 32 }
    requires heavy { 1 ≤ mass }
    requires light { mass ≤ 1000 }
    ensures { IfOk result (λ v. v.items ≡ map (H.number hash.now checked.now) (windows_of_all (record { fewest = min; least = mass }) 0 (bodies_of checked.now.functions))) }
{
    let _types = checked.types();
    let mut out = Vec::new(alloc);
    for f in checked.functions() {
        let hashes = hash.hashes(alloc, checked, f.number(), min, mass)?;
        push_numbers(&hashes, &mut out)?;
    }
    Ok(out)
}

/// Puts the numbers of windows behind the others.
fn push_numbers(hashes: &[(Window, u64)], out: &mut Vec<u64>) -> Result<(), AllocError>
    ensures { OnOk result (out.new.items ≡ out.old.items ++ map (λ x. x.1) hashes.now) }
{
    for hash in hashes {
        out.push(hash.1)?;
    }
    Ok(())
}

/// How many distinct ones there are.
///
/// # Errors
///
/// Want of memory.
pub fn distinct(alloc: Global, hashes: &[u64]) -> Result<u64, AllocError>
    ensures { IfOk result (λ n. n ≡ distinct_count nat_eq hashes.now) }
{
    let set = collected(alloc, hashes)?;
    Ok(set.len() as u64)
}

/// These numbers as a set.
fn collected(alloc: Global, hashes: &[u64]) -> Result<HashSet<u64>, AllocError>
    ensures { IfOk result (set.IsFromIterResult nat_eq hashes.now) }
{
    hashes.iter().copied().collect(alloc)
}
