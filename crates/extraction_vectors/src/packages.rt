//! Packages that tables write, with their types.

ghost use Rattle.std.specs.Prelude.{IfOk};
ghost use Rattle.go_base.specs.Package.{IsPackage};

use case_tables::folders::folder_of;
use clone_server::open_folder;
use go_base::{FileText, Memory};
use go_package::check;
use go_package_defs::{CheckError, CheckedPackage};
use std::alloc::Global;

/// The files of the package, as `NAME=BYTES`, divided by blanks, and `-` for none.
fn files_of(alloc: Global, files: &str) -> Result<Vec<FileText>, Memory>
    ensures { IfOk result (λ v. IsPackage v.items) }
{
    let mut folder = folder_of(alloc, "d", files, Vec::new(alloc))?;
    open_folder(alloc, &mut folder, "d").map_err(|_| Memory)
}

/// The package of these files with its types; none where a fault is reported.
///
/// # Errors
///
/// Want of memory.
pub fn package_of(alloc: Global, files: &str) -> Result<Option<CheckedPackage>, Memory> {
    let files = files_of(alloc, files)?;
    match check(alloc, &files) {
        Ok(package) => Ok(Some(package)),
        Err(CheckError::Fault(_)) => Ok(None),
        Err(CheckError::Memory) => Err(Memory),
    }
}
