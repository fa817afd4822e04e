//! How many bytes a package has behind edits.

ghost use Rattle.std.specs.Prelude.{◌≡◌, ◌+◌, ◌-◌, nat_lt, IfOk};
ghost use Rattle.go_base.specs.Package.{Ascends, most_bytes, total_bytes};
ghost use Rattle.edit_apply.specs.Applied.{applied};
ghost use Rattle.extract_rewrite.specs.Ready.{CanBeDone, added_bytes, removed_bytes};

use edit_apply::Edit;
use go_base::{FileText, MAX_BYTES, Memory};

/// Whether files have more bytes behind edits than a package may have.
///
/// # Errors
///
/// Want of memory; also where there are more bytes than numbers.
#[tactic(auto, using(crate::proofs::Sizes::too_large))]
pub(crate) fn is_too_large(files: &[FileText], edits: &[Edit]) -> Result<bool, Memory>
    requires ascends { Ascends files.now }
    requires edits { CanBeDone files.now edits.now }
    ensures { IfOk result (λ b. b ≡ nat_lt most_bytes (total_bytes (applied files.now edits.now))) }
{
    let held = held_bytes(files)?;
    let added = added_bytes(edits)?;
    let removed = removed_bytes(edits)?;
    let more = sum(held, added)?;
    let most = sum(removed, u64::from(MAX_BYTES))?;
    Ok(most < more)
}

/// How many bytes files have.
fn held_bytes(files: &[FileText]) -> Result<u64, Memory>
    ensures { IfOk result (λ n. n ≡ total_bytes files.now) }
{
    let mut total: u64 = 0;
    for file in files {
        total = sum(total, file.bytes.len() as u64)?;
    }
    Ok(total)
}

/// How many bytes the texts of edits have.
fn added_bytes(edits: &[Edit]) -> Result<u64, Memory>
    ensures { IfOk result (λ n. n ≡ added_bytes edits.now) }
{
    let mut total: u64 = 0;
    for edit in edits {
        total = sum(total, edit.text.len() as u64)?;
    }
    Ok(total)
}

/// How many bytes the ranges of edits have.
fn removed_bytes(edits: &[Edit]) -> Result<u64, Memory>
    ensures { IfOk result (λ n. n ≡ removed_bytes edits.now) }
{
    let mut total: u64 = 0;
    for edit in edits {
        total = sum(total, u64::from(edit.end.saturating_sub(edit.start)))?;
    }
    Ok(total)
}

/// The sum of two numbers, if it is a number of 64 bits.
pub(crate) fn sum(a: u64, b: u64) -> Result<u64, Memory>
    ensures { IfOk result (λ n. n ≡ a + b) }
{
    match a.checked_add(b) {
        Some(sum) => Ok(sum),
        None => Err(Memory),
    }
}
