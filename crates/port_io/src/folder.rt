ghost use Rattle.std.specs.Prelude.{◌≡◌, ◌↔◌, ◌++◌, ℕ, List, Option, Some, None, Err, IfOk, IfErr, IfSome, IsErr, OnOk, OnErr, IsSome, codes, string_bytes};
ghost use Rattle.std.specs.Option.{option_copied, option_map};
ghost use Rattle.std.specs.IoError.{error_kind};
ghost use Rattle.std.specs.Iterator.{IsFinite};
ghost use Rattle.std.specs.Fs.{dir_entry_name};
ghost use Rattle.std.specs.Str.{IsUtf8};
ghost use Rattle.std.specs.List.Sorted.{IsPermutation};
ghost use Rattle.std.specs.FinMap as map;
ghost use Rattle.go_base.specs.Gives.{Gives};
ghost use Rattle.port_io.specs.Listing.{folder_refusal, name_failure, name_in_folder, TellsNames, TellsFault};
ghost use Rattle.port_io.specs.Held.{Held, files_under, with_file};
ghost use Rattle.port_io.specs.Folders.{CountsCall, Writes};
ghost use Rattle.port_io.specs.Stored.{held_by, chosen_text};

use crate::calls::{Calls, raise};
use crate::store::Store;
use go_base::{Bytes, Memory, Name, NameError};
use std::alloc::{AllocError, AllocFailed, Global};
use std::fs::DirEntry;
use std::io::ErrorKind;
use std::rt::Files;
use std::{fs, io};
use thiserror::Error;

/// Why a folder did not do what it was asked.
#[derive(Clone, Copy, Debug, PartialEq, Eq, Error)]
pub enum FolderError {
    #[error("a folder failed")]
    Failed,
    #[error("out of memory")]
    Memory,
}

impl From<Memory> for FolderError {
    ghost use Rattle.port_io.specs.declared.folder.FolderError.TheVariants as errors;

    ghost from_gives = { λ _ e. e ≡ errors.Memory };

    fn from(_error: Memory) -> FolderError {
        FolderError::Memory
    }
}

impl From<AllocError> for FolderError {
    ghost use Rattle.port_io.specs.declared.folder.FolderError.TheVariants as errors;

    ghost from_gives = { λ _ e. e ≡ errors.Memory };

    fn from(_error: AllocError) -> FolderError {
        FolderError::Memory
    }
}

impl<T: Drop> From<AllocFailed<T>> for FolderError {
    ghost use Rattle.port_io.specs.declared.folder.FolderError.TheVariants as errors;

    ghost from_gives = { λ _ e. e ≡ errors.Memory };

    fn from(_error: AllocFailed<T>) -> FolderError {
        FolderError::Memory
    }
}

/// Folders of files, each under a text, of which one is chosen. A name is held where it is held
/// under the chosen text, and what is held under other texts stays.
pub trait Folder {
    /// The text of the chosen folder.
    ghost chosen: { Self → Option (List ℕ) };

    /// The files under each text, where they are told.
    ghost held: { Self → Option Held };

    /// How many calls of `select`, `names` and `read` failed. The count stands still at 2^64 - 1.
    ghost reading_faults: { Self → ℕ };

    /// How many calls of `write` failed. The count stands still at 2^64 - 1.
    ghost writing_faults: { Self → ℕ };

    /// Chooses the folder with this text.
    fn select(&mut self, dir: &str) -> Result<(), FolderError>
        ensures ok { OnOk result (chosen self.new ≡ Some dir.now) }
        ensures err { OnErr result (chosen self.new ≡ chosen self.old) }
        ensures held { held self.new ≡ held self.old }
        ensures reading { CountsCall result (reading_faults self.old) (reading_faults self.new) }
        ensures writing { writing_faults self.new ≡ writing_faults self.old };

    /// The names that are held, each once, in any order.
    fn names(&mut self) -> Result<Vec<Name>, FolderError>
        requires { IsSome (chosen self.old) }
        ensures names { IfOk result (λ names. IfSome (files_under (held self.old) (chosen self.old)) (λ files.
            IsPermutation (map.keys files) names.items)) }
        ensures chosen { chosen self.new ≡ chosen self.old }
        ensures held { held self.new ≡ held self.old }
        ensures reading { CountsCall result (reading_faults self.old) (reading_faults self.new) }
        ensures writing { writing_faults self.new ≡ writing_faults self.old };

    /// The bytes under a name that is held.
    fn read(&mut self, name: &Name) -> Result<Bytes, FolderError>
        requires chosen { IsSome (chosen self.old) }
        requires held { IfSome (files_under (held self.old) (chosen self.old)) (λ files. IsSome (map.get files name.now)) }
        ensures bytes { IfOk result (λ bytes. IfSome (files_under (held self.old) (chosen self.old)) (λ files.
            map.get files name.now ≡ Some bytes)) }
        ensures chosen { chosen self.new ≡ chosen self.old }
        ensures held { held self.new ≡ held self.old }
        ensures reading { CountsCall result (reading_faults self.old) (reading_faults self.new) }
        ensures writing { writing_faults self.new ≡ writing_faults self.old };

    /// Puts bytes under a name. After `Failed` the name may hold anything, and all other names stay.
    fn write(&mut self, name: &Name, bytes: &[u8]) -> Result<(), FolderError>
        requires { IsSome (chosen self.old) }
        ensures held { Writes result (held self.old) (held self.new) (chosen self.old) name.now bytes.now }
        ensures chosen { chosen self.new ≡ chosen self.old }
        ensures reading { reading_faults self.new ≡ reading_faults self.old }
        ensures writing { CountsCall result (writing_faults self.old) (writing_faults self.new) };
}

/// Folders in memory, with calls that fail by their numbers, counted from 1 over all calls.
#[derive(Drop)]
pub struct MemFolder {
    store: Store,
    calls: Calls,
    reading_faults: u64,
    writing_faults: u64,
}

impl MemFolder {
    ghost use Rattle.port_io.specs.Calls.{planned};
    ghost use Rattle.port_io.specs.Plans.{folder_plan};

    /// Folders without files, of which the calls with these numbers fail.
    pub fn new(alloc: Global, failing: Vec<u64>) -> MemFolder
        ensures chosen { ⟦<MemFolder as Folder>⟧.chosen result ≡ None }
        ensures held { ⟦<MemFolder as Folder>⟧.held result ≡ Some (λ _. map.empty) }
        ensures reading { ⟦<MemFolder as Folder>⟧.reading_faults result ≡ 0 }
        ensures writing { ⟦<MemFolder as Folder>⟧.writing_faults result ≡ 0 }
        ensures plan { folder_plan result ≡ planned failing.items }
    {
        MemFolder {
            store: Store::new(alloc),
            calls: Calls::new(failing),
            reading_faults: 0,
            writing_faults: 0,
        }
    }

    /// Puts a file into a folder. This is no call of the folder.
    pub fn add(&mut self, dir: &str, name: &Name, bytes: &[u8]) -> Result<(), Memory>
        ensures ok { OnOk result (IfSome (⟦<MemFolder as Folder>⟧.held self.old) (λ held.
            ⟦<MemFolder as Folder>⟧.held self.new ≡ Some (with_file held dir.now name.now bytes.now))) }
        ensures err { OnErr result (⟦<MemFolder as Folder>⟧.held self.new ≡ ⟦<MemFolder as Folder>⟧.held self.old) }
        ensures chosen { ⟦<MemFolder as Folder>⟧.chosen self.new ≡ ⟦<MemFolder as Folder>⟧.chosen self.old }
        ensures reading { ⟦<MemFolder as Folder>⟧.reading_faults self.new ≡ ⟦<MemFolder as Folder>⟧.reading_faults self.old }
        ensures writing { ⟦<MemFolder as Folder>⟧.writing_faults self.new ≡ ⟦<MemFolder as Folder>⟧.writing_faults self.old }
        ensures plan { folder_plan self.new ≡ folder_plan self.old }
    {
        self.store.add(dir, name, bytes)
    }

    /// The bytes under a name in a folder.
    pub fn find(&self, dir: &str, name: &Name) -> Option<&Bytes>
        ensures { IfSome (⟦<MemFolder as Folder>⟧.held self.now) (λ held.
            option_copied result ≡ map.get (held dir.now) name.now) }
    {
        self.store.find(dir, name)
    }
}

impl Folder for MemFolder {
    ghost use Rattle.port_io.specs.Calls.{FollowsPlan, is_failed_call};
    ghost use Rattle.port_io.specs.Plans.{folder_plan};

    ghost chosen = { λ f. chosen_text f.store.chosen };

    ghost held = { λ f. Some (held_by f.store.files.items) };

    ghost reading_faults = { λ f. f.reading_faults };

    ghost writing_faults = { λ f. f.writing_faults };

    fn select(&mut self, dir: &str) -> Result<(), FolderError>
        ensures ok { OnOk result (⟦<MemFolder as Folder>⟧.chosen self.new ≡ Some dir.now) }
        ensures err { OnErr result (⟦<MemFolder as Folder>⟧.chosen self.new ≡ ⟦<MemFolder as Folder>⟧.chosen self.old) }
        ensures held { ⟦<MemFolder as Folder>⟧.held self.new ≡ ⟦<MemFolder as Folder>⟧.held self.old }
        ensures reading { CountsCall result (⟦<MemFolder as Folder>⟧.reading_faults self.old) (⟦<MemFolder as Folder>⟧.reading_faults self.new) }
        ensures writing { ⟦<MemFolder as Folder>⟧.writing_faults self.new ≡ ⟦<MemFolder as Folder>⟧.writing_faults self.old }
        ensures plan { FollowsPlan (folder_plan self.old) (folder_plan self.new) (is_failed_call result) }
    {
        if self.calls.next_fails() {
            self.reading_faults = raise(self.reading_faults);
            return Err(FolderError::Failed);
        }
        self.store.select(dir)?;
        Ok(())
    }

    fn names(&mut self) -> Result<Vec<Name>, FolderError>
        requires { IsSome (⟦<MemFolder as Folder>⟧.chosen self.old) }
        ensures names { IfOk result (λ names. IfSome (files_under (⟦<MemFolder as Folder>⟧.held self.old) (⟦<MemFolder as Folder>⟧.chosen self.old)) (λ files.
            IsPermutation (map.keys files) names.items)) }
        ensures chosen { ⟦<MemFolder as Folder>⟧.chosen self.new ≡ ⟦<MemFolder as Folder>⟧.chosen self.old }
        ensures held { ⟦<MemFolder as Folder>⟧.held self.new ≡ ⟦<MemFolder as Folder>⟧.held self.old }
        ensures reading { CountsCall result (⟦<MemFolder as Folder>⟧.reading_faults self.old) (⟦<MemFolder as Folder>⟧.reading_faults self.new) }
        ensures writing { ⟦<MemFolder as Folder>⟧.writing_faults self.new ≡ ⟦<MemFolder as Folder>⟧.writing_faults self.old }
        ensures plan { FollowsPlan (folder_plan self.old) (folder_plan self.new) (is_failed_call result) }
    {
        if self.calls.next_fails() {
            self.reading_faults = raise(self.reading_faults);
            return Err(FolderError::Failed);
        }
        Ok(self.store.names()?)
    }

    fn read(&mut self, name: &Name) -> Result<Bytes, FolderError>
        requires chosen { IsSome (⟦<MemFolder as Folder>⟧.chosen self.old) }
        requires held { IfSome (files_under (⟦<MemFolder as Folder>⟧.held self.old) (⟦<MemFolder as Folder>⟧.chosen self.old)) (λ files.
            IsSome (map.get files name.now)) }
        ensures bytes { IfOk result (λ bytes. IfSome (files_under (⟦<MemFolder as Folder>⟧.held self.old) (⟦<MemFolder as Folder>⟧.chosen self.old)) (λ files.
            map.get files name.now ≡ Some bytes)) }
        ensures chosen { ⟦<MemFolder as Folder>⟧.chosen self.new ≡ ⟦<MemFolder as Folder>⟧.chosen self.old }
        ensures held { ⟦<MemFolder as Folder>⟧.held self.new ≡ ⟦<MemFolder as Folder>⟧.held self.old }
        ensures reading { CountsCall result (⟦<MemFolder as Folder>⟧.reading_faults self.old) (⟦<MemFolder as Folder>⟧.reading_faults self.new) }
        ensures writing { ⟦<MemFolder as Folder>⟧.writing_faults self.new ≡ ⟦<MemFolder as Folder>⟧.writing_faults self.old }
        ensures plan { FollowsPlan (folder_plan self.old) (folder_plan self.new) (is_failed_call result) }
    {
        if self.calls.next_fails() {
            self.reading_faults = raise(self.reading_faults);
            return Err(FolderError::Failed);
        }
        Ok(self.store.read(name)?)
    }

    fn write(&mut self, name: &Name, bytes: &[u8]) -> Result<(), FolderError>
        requires { IsSome (⟦<MemFolder as Folder>⟧.chosen self.old) }
        ensures held { Writes result (⟦<MemFolder as Folder>⟧.held self.old) (⟦<MemFolder as Folder>⟧.held self.new) (⟦<MemFolder as Folder>⟧.chosen self.old) name.now bytes.now }
        ensures kept { OnErr result (⟦<MemFolder as Folder>⟧.held self.new ≡ ⟦<MemFolder as Folder>⟧.held self.old) }
        ensures chosen { ⟦<MemFolder as Folder>⟧.chosen self.new ≡ ⟦<MemFolder as Folder>⟧.chosen self.old }
        ensures reading { ⟦<MemFolder as Folder>⟧.reading_faults self.new ≡ ⟦<MemFolder as Folder>⟧.reading_faults self.old }
        ensures writing { CountsCall result (⟦<MemFolder as Folder>⟧.writing_faults self.old) (⟦<MemFolder as Folder>⟧.writing_faults self.new) }
        ensures plan { FollowsPlan (folder_plan self.old) (folder_plan self.new) (is_failed_call result) }
    {
        if self.calls.next_fails() {
            self.writing_faults = raise(self.writing_faults);
            return Err(FolderError::Failed);
        }
        self.store.write(name, bytes)?;
        Ok(())
    }
}

/// Folders in memory, whose calls never fail.
#[derive(Drop)]
pub struct SureFolder {
    store: Store,
}

impl SureFolder {
    /// Folders without files.
    pub fn new(alloc: Global) -> SureFolder
        ensures chosen { ⟦<SureFolder as Folder>⟧.chosen result ≡ None }
        ensures held { ⟦<SureFolder as Folder>⟧.held result ≡ Some (λ _. map.empty) }
    {
        SureFolder {
            store: Store::new(alloc),
        }
    }

    /// Puts a file into a folder.
    pub fn add(&mut self, dir: &str, name: &Name, bytes: &[u8]) -> Result<(), Memory>
        ensures ok { OnOk result (IfSome (⟦<SureFolder as Folder>⟧.held self.old) (λ held.
            ⟦<SureFolder as Folder>⟧.held self.new ≡ Some (with_file held dir.now name.now bytes.now))) }
        ensures err { OnErr result (⟦<SureFolder as Folder>⟧.held self.new ≡ ⟦<SureFolder as Folder>⟧.held self.old) }
        ensures chosen { ⟦<SureFolder as Folder>⟧.chosen self.new ≡ ⟦<SureFolder as Folder>⟧.chosen self.old }
    {
        self.store.add(dir, name, bytes)
    }

    /// The bytes under a name in a folder.
    pub fn find(&self, dir: &str, name: &Name) -> Option<&Bytes>
        ensures { IfSome (⟦<SureFolder as Folder>⟧.held self.now) (λ held.
            option_copied result ≡ map.get (held dir.now) name.now) }
    {
        self.store.find(dir, name)
    }
}

impl Folder for SureFolder {
    ghost chosen = { λ f. chosen_text f.store.chosen };

    ghost held = { λ f. Some (held_by f.store.files.items) };

    ghost reading_faults = { λ _. 0 };

    ghost writing_faults = { λ _. 0 };

    fn select(&mut self, dir: &str) -> Result<(), FolderError> {
        self.store.select(dir)?;
        Ok(())
    }

    fn names(&mut self) -> Result<Vec<Name>, FolderError> {
        Ok(self.store.names()?)
    }

    fn read(&mut self, name: &Name) -> Result<Bytes, FolderError> {
        Ok(self.store.read(name)?)
    }

    fn write(&mut self, name: &Name, bytes: &[u8]) -> Result<(), FolderError> {
        self.store.write(name, bytes)?;
        Ok(())
    }
}

/// The folders of the file system. They tell no contents.
#[derive(Drop)]
pub struct DirFolder<R: Files + AllocGlobal + Clone + Drop> {
    rt: R,
    chosen: Option<String>,
    reading_faults: u64,
    writing_faults: u64,
}

impl<R: Files + AllocGlobal + Clone + Drop> DirFolder<R> {
    /// The folders that the runtime reaches.
    pub fn new(rt: R) -> DirFolder<R>
        ensures chosen { ⟦<DirFolder<R> as Folder>⟧.chosen result ≡ None }
        ensures reading { ⟦<DirFolder<R> as Folder>⟧.reading_faults result ≡ 0 }
        ensures writing { ⟦<DirFolder<R> as Folder>⟧.writing_faults result ≡ 0 }
    {
        DirFolder {
            rt,
            chosen: None,
            reading_faults: 0,
            writing_faults: 0,
        }
    }
}

/// A failed call, unless memory ran out.
fn cause(error: io::Error) -> FolderError
    ensures { (result ≡ FolderError.Memory) ↔ (error_kind error ≡ ErrorKind.OutOfMemory) }
{
    if error.kind() == ErrorKind::OutOfMemory {
        FolderError::Memory
    } else {
        FolderError::Failed
    }
}

/// The outcome as it is, counted where it is a fault.
fn counted<X>(outcome: Result<X, FolderError>, faults: &mut u64) -> Result<X, FolderError>
    ensures same { result ≡ outcome }
    ensures count { CountsCall outcome faults.old faults.new }
{
    if let Err(FolderError::Failed) = &outcome {
        *faults = raise(*faults);
    }
    outcome
}

/// The path of a file. A name that is no text has none.
fn path_in(alloc: Global, dir: &str, name: &Name) -> Result<String, FolderError>
    ensures path { IfOk result (λ path. string_bytes path ≡ dir.now ++ codes "/" ++ name.now) }
    ensures failed { (result ≡ Err FolderError.Failed) ↔ (IsUtf8 name.now → ⊥) }
{
    let Ok(name) = std::str::from_utf8(name.bytes()) else {
        return Err(FolderError::Failed);
    };
    Ok(format!(in alloc; "{dir}/{name}")?)
}

/// The names of the plain files.
fn list_dir<R: Files + AllocGlobal + Clone + Drop>(
    rt: &R,
    dir: &str,
) -> Result<Vec<Name>, FolderError> {
    let alloc = rt.alloc();
    let entries = fs::read_dir(rt, dir).map_err(cause)?;
    names_among(alloc, entries.map(|entry| name_at(alloc, entry)))
}

/// The names among the entries, which end at the first fault.
fn names_among<I: Iterator<Item = Result<Option<Name>, FolderError>>>(
    alloc: Global,
    entries: I,
) -> Result<Vec<Name>, FolderError>
    requires can { I.can_next entries }
    requires ends { IsFinite (I.remaining entries) }
    ensures names { IfOk result (λ names. TellsNames I.next_gives entries names.items) }
    ensures failed { (result ≡ Err FolderError.Failed) → TellsFault I.next_gives entries }
{
    let mut names = Vec::new(alloc);
    for entry in entries {
        if let Some(name) = entry? {
            names.push(name)?;
        }
    }
    Ok(names)
}

/// The name of an entry, if it is a plain file.
fn name_at<R: Files + AllocGlobal + Clone + Drop>(
    alloc: Global,
    entry: io::Result<DirEntry<R>>,
) -> Result<Option<Name>, FolderError>
    ensures err { IfErr entry (λ _. IsErr result) }
    ensures name { IfOk entry (λ entry. IfOk result (λ name. IfSome name (λ name. name ≡ dir_entry_name entry))) }
{
    let entry = entry.map_err(cause)?;
    if entry.file_type().map_err(cause)?.is_file() {
        Ok(Some(name_of(alloc, entry.file_name())?))
    } else {
        Ok(None)
    }
}

/// A text that is no name is a failed call.
fn name_cause(error: NameError) -> FolderError
    ensures { result ≡ name_failure error }
{
    match error {
        NameError::Form => FolderError::Failed,
        NameError::Memory => FolderError::Memory,
    }
}

fn name_of(alloc: Global, text: &str) -> Result<Name, FolderError>
    ensures { Gives (λ n. n) folder_refusal result (name_in_folder text.now) }
{
    Name::of(alloc, text.as_bytes()).map_err(name_cause)
}

fn read_file<R: Files + AllocGlobal + Clone + Drop>(
    rt: &R,
    dir: &str,
    name: &Name,
) -> Result<Bytes, FolderError> {
    let path = path_in(rt.alloc(), dir, name)?;
    Ok(Bytes::of(fs::read(rt, path.as_str()).map_err(cause)?))
}

fn write_file<R: Files + AllocGlobal + Clone + Drop>(
    rt: &R,
    dir: &str,
    name: &Name,
    bytes: &[u8],
) -> Result<(), FolderError> {
    let path = path_in(rt.alloc(), dir, name)?;
    fs::write(rt, path.as_str(), bytes).map_err(cause)
}

fn text_of(chosen: &Option<String>) -> &str
    requires { IsSome (chosen_text chosen.now) }
    ensures { chosen_text chosen.now ≡ Some result.now }
{
    match chosen {
        Some(dir) => dir.as_str(),
        None => unreachable!(),
    }
}

impl<R: Files + AllocGlobal + Clone + Drop> Folder for DirFolder<R> {
    ghost chosen = { λ f. chosen_text f.chosen };

    ghost held = { λ _. None };

    ghost reading_faults = { λ f. f.reading_faults };

    ghost writing_faults = { λ f. f.writing_faults };

    fn select(&mut self, dir: &str) -> Result<(), FolderError> {
        self.chosen = Some(String::from_str(self.rt.alloc(), dir)?);
        Ok(())
    }

    fn names(&mut self) -> Result<Vec<Name>, FolderError> {
        let outcome = list_dir(&self.rt, text_of(&self.chosen));
        counted(outcome, &mut self.reading_faults)
    }

    fn read(&mut self, name: &Name) -> Result<Bytes, FolderError> {
        let outcome = read_file(&self.rt, text_of(&self.chosen), name);
        counted(outcome, &mut self.reading_faults)
    }

    fn write(&mut self, name: &Name, bytes: &[u8]) -> Result<(), FolderError> {
        let outcome = write_file(&self.rt, text_of(&self.chosen), name, bytes);
        counted(outcome, &mut self.writing_faults)
    }
}
