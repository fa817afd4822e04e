//! Whether a package is within the limits once edits are done.

ghost use Rattle.std.specs.Prelude.{◌≡◌, IfOk};
ghost use Rattle.go_base.specs.Package.{IsPackage};
ghost use Rattle.go_package_defs.specs.Checked.{AreRead};
ghost use Rattle.edit_apply.specs.Applied.{applied};
ghost use Rattle.extract_rewrite.specs.Reading.{Judges};
ghost use Rattle.extract_rewrite.specs.Ready.{CanBeDone};

use crate::reading::are_within_limits;
use crate::size::is_too_large;
use edit_apply::{Edit, Texts};
use go_base::{Bytes, FileText, Memory};
use go_typed::checked::Checked;
use std::alloc::Global;

/// Whether a package that has these texts is within the limits once edits are done: on its bytes, on the levels of its trees and on its
/// statements. Only files that change are read.
///
/// # Errors
///
/// Want of memory; also where there are more bytes or statements than numbers.
pub(crate) fn keeps_limits(
    alloc: Global,
    checked: &Checked,
    before: &[FileText],
    edits: &[Edit],
) -> Result<bool, Memory>
    requires package { IsPackage before.now }
    requires read { AreRead 0 before.now checked.now.files }
    requires edits { CanBeDone before.now edits.now }
    ensures { IfOk result (λ b. Judges b (applied before.now edits.now)) }
{
    if is_too_large(before, edits)? {
        return Ok(false);
    }
    let mut after = copied(alloc, before)?;
    after.apply(edits)?;
    are_within_limits(alloc, checked.files(), before, after.all())
}

/// A copy of the texts of a package.
fn copied(alloc: Global, files: &[FileText]) -> Result<Texts, Memory>
    requires { IsPackage files.now }
    ensures { IfOk result (λ copy. copy ≡ files.now) }
{
    let mut copies = Vec::with_capacity(alloc, files.len())?;
    for file in files {
        copies.push(copy_of(alloc, file)?)?;
    }
    Texts::load(alloc, copies)
}

/// A copy of one file.
fn copy_of(alloc: Global, file: &FileText) -> Result<FileText, Memory>
    ensures { IfOk result (λ copy. copy ≡ file.now) }
{
    Ok(FileText {
        name: file.name.clone()?,
        bytes: Bytes::from_slice(alloc, file.bytes.as_slice())?,
    })
}
