//! Reading the files of a folder.

ghost use Rattle.std.specs.Prelude.{◌≡◌, ◌≤◌, ◌⊎◌, List, ℕ, length, map, Some, IfOk, IfErr, OnOk, IsSome};
ghost use Rattle.std.specs.List.{All};
ghost use Rattle.std.specs.List.Sorted.{IsStrictlySortedBy};
ghost use Rattle.std.specs.Ordering.{nat_cmp};
ghost use Rattle.std.specs.Cmp.Lexicographic.{slice_cmp};
ghost use Rattle.std.specs.Result.{IsErrOf};
ghost use Rattle.std.specs.FinMap as finite;
ghost use Rattle.go_base.specs.Gives.{Gives};
ghost use Rattle.go_base.specs.Package.{IsPackage, most_bytes, total_bytes};
ghost use Rattle.port_io.specs.Held.{Held, Files, files_under};
ghost use Rattle.clone_server.specs.Opening.{CountsOpening, folder_error, names_of, file_at, within_bytes, opened, open_refusal};

use crate::names::go_names;
use go_base::{FileText, MAX_BYTES, MAX_FILES, Name};
use port_io::{Folder, FolderError};
use std::alloc::{AllocFailed, Global};
use thiserror::Error;

/// Why a folder was not opened.
#[derive(Clone, Copy, Debug, PartialEq, Eq, Error)]
pub enum OpenError {
    /// A call of the folder failed.
    #[error("a folder failed")]
    Folder,
    /// Memory ran out.
    #[error("out of memory")]
    Memory,
    /// The files pass a limit of packages: there are more than 256, or they have more than 1,048,576 bytes.
    #[error("the package would pass a limit")]
    Limit,
}

impl From<FolderError> for OpenError {
    ghost from_gives = { λ x e. e ≡ folder_error x };

    fn from(error: FolderError) -> OpenError {
        match error {
            FolderError::Failed => OpenError::Folder,
            FolderError::Memory => OpenError::Memory,
        }
    }
}

impl<T: Drop> From<AllocFailed<T>> for OpenError {
    ghost use Rattle.clone_server.specs.declared.folder.OpenError.TheVariants as errors;

    ghost from_gives = { λ _ e. e ≡ errors.Memory };

    fn from(_error: AllocFailed<T>) -> OpenError {
        OpenError::Memory
    }
}

/// The names of the package's files in the chosen folder, each once, in byte order.
fn names_in<F: Folder>(folder: &mut F) -> Result<Vec<Name>, OpenError>
    requires { IsSome (F.chosen folder.old) }
    ensures sorted { IfOk result (λ names. IsStrictlySortedBy (slice_cmp nat_cmp) names.items) }
    ensures names { (files : Files) → files_under (F.held folder.old) (F.chosen folder.old) ≡ Some files → IfOk result (λ names. names.items ≡ names_of files) }
    ensures reading { CountsOpening result (F.reading_faults folder.old) (F.reading_faults folder.new) }
    ensures no_limit { IsErrOf result OpenError.Limit → ⊥ }
    ensures writing { F.writing_faults folder.new ≡ F.writing_faults folder.old }
    ensures held { F.held folder.new ≡ F.held folder.old }
    ensures chosen { F.chosen folder.new ≡ F.chosen folder.old }
{
    let names = folder.names()?;
    Ok(go_names(names))
}

/// The files of these names, one after the other, unless their bytes pass the limit.
fn read_files<F: Folder>(
    alloc: Global,
    folder: &mut F,
    names: Vec<Name>,
) -> Result<Vec<FileText>, OpenError>
    requires chosen { IsSome (F.chosen folder.old) }
    requires held { (files : Files) → files_under (F.held folder.old) (F.chosen folder.old) ≡ Some files → All (λ name. IsSome (finite.get files name)) names.items }
    ensures names { IfOk result (λ v. map (λ f. f.name) v.items ≡ names.items) }
    ensures small { IfOk result (λ v. total_bytes v.items ≤ most_bytes) }
    ensures files { (files : Files) → files_under (F.held folder.old) (F.chosen folder.old) ≡ Some files → Gives (λ v. v.items) open_refusal result (within_bytes (map (file_at files) names.items)) }
    ensures reading { CountsOpening result (F.reading_faults folder.old) (F.reading_faults folder.new) }
    ensures writing { F.writing_faults folder.new ≡ F.writing_faults folder.old }
    ensures held { F.held folder.new ≡ F.held folder.old }
    ensures chosen { F.chosen folder.new ≡ F.chosen folder.old }
{
    let mut files = Vec::new(alloc);
    let mut total = 0;
    for name in names {
        let bytes = folder.read(&name)?;
        total += bytes.len();
        if total > MAX_BYTES as usize {
            return Err(OpenError::Limit);
        }
        files.push(FileText { name, bytes })?;
    }
    Ok(files)
}

/// Chooses the folder with this text, and reads the files of its package: those whose names have the right form, in byte
/// order of the names. What the folder holds stays.
pub fn open_folder<F: Folder>(
    alloc: Global,
    folder: &mut F,
    dir: &str,
) -> Result<Vec<FileText>, OpenError>
    // The folder's reading count rose exactly where one of its calls failed.
    ensures reading { CountsOpening result (F.reading_faults folder.old) (F.reading_faults folder.new) }
    ensures writing { F.writing_faults folder.new ≡ F.writing_faults folder.old }
    ensures held { F.held folder.new ≡ F.held folder.old }
    ensures selected { OnOk result (F.chosen folder.new ≡ Some dir.now) }
    // Whatever a folder answers, the files are a package.
    ensures package { IfOk result (λ v. IsPackage v.items) }
    // Where its files are told, they are those of the definition, or pass a limit.
    ensures files { (held : Held) → F.held folder.old ≡ Some held → Gives (λ v. v.items) open_refusal result (opened (held dir.now)) }
{
    folder.select(dir)?;
    let names = names_in(folder)?;
    if names.len() > MAX_FILES as usize {
        return Err(OpenError::Limit);
    }
    read_files(alloc, folder, names)
}
