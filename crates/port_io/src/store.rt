ghost use Rattle.std.specs.Prelude.{◌≡◌, ◌&&◌, string_bytes, [], Some, None, IfOk, IfSome, OnOk, OnErr, IsSome};
ghost use Rattle.std.specs.Ordering.{nat_cmp};
ghost use Rattle.std.specs.Cmp.Lexicographic.{slice_cmp};
ghost use Rattle.std.specs.Option.{option_copied};
ghost use Rattle.std.specs.Str.{bytes_eq};
ghost use Rattle.std.specs.List.Sorted.{IsPermutation};
ghost use Rattle.std.specs.FinMap as map;
ghost use Rattle.port_io.specs.Held.{with_file};
ghost use Rattle.port_io.specs.Stored.{stored_under, held_by, chosen_text, with_name};

use go_base::{Bytes, Memory, Name};
use std::alloc::Global;

/// One file, and the text of the folder that it lies in.
#[derive(Drop)]
pub(crate) struct Stored {
    folder: String,
    name: Name,
    bytes: Bytes,
}

/// Files in memory, under the texts of their folders, and the chosen text. The newest write comes
/// first, and hides older ones of the same file.
#[derive(Drop)]
pub(crate) struct Store {
    alloc: Global,
    files: Vec<Stored>,
    chosen: Option<String>,
}

impl Stored {
    fn is_in(&self, folder: &str) -> bool
        ensures { result ≡ bytes_eq folder.now (string_bytes self.now.folder) }
    {
        folder == self.folder.as_str()
    }

    fn is_at(&self, folder: &str, name: &Name) -> bool
        ensures { result ≡ (bytes_eq folder.now (string_bytes self.now.folder) && bytes_eq name.now self.now.name) }
    {
        self.is_in(folder) && *name == self.name
    }
}

/// The bytes of the newest write of the file.
fn find_file<'a>(files: &'a [Stored], folder: &str, name: &Name) -> Option<&'a Bytes>
    ensures { option_copied result ≡ map.find (slice_cmp nat_cmp) name.now (stored_under folder.now files.now) }
{
    for file in files {
        if file.is_at(folder, name) {
            return Some(&file.bytes);
        }
    }
    None
}

/// Puts a name at the end, unless it is there.
fn push_new(names: &mut Vec<Name>, name: &Name) -> Result<(), Memory>
    ensures { OnOk result (names.new.items ≡ with_name names.old.items name.now) }
{
    if !names.contains(name) {
        names.push(name.clone()?)?;
    }
    Ok(())
}

/// The names in the folder, each once.
fn list_names(alloc: Global, files: &[Stored], folder: &str) -> Result<Vec<Name>, Memory>
    ensures { IfOk result (λ names. IsPermutation (map.keys (held_by files.now folder.now)) names.items) }
{
    let mut names: Vec<Name> = Vec::new(alloc);
    for i in (0..files.len()).rev() {
        let file = &files[i];
        if file.is_in(folder) {
            push_new(&mut names, &file.name)?;
        }
    }
    Ok(names)
}

impl Store {
    pub(crate) fn new(alloc: Global) -> Store
        ensures files { result.files.items ≡ [] }
        ensures chosen { chosen_text result.chosen ≡ None }
    {
        Store {
            alloc,
            files: Vec::new(alloc),
            chosen: None,
        }
    }

    /// Puts a file into a folder, in the place of one of its name.
    pub(crate) fn add(&mut self, folder: &str, name: &Name, bytes: &[u8]) -> Result<(), Memory>
        ensures ok { OnOk result (held_by self.new.files.items ≡ with_file (held_by self.old.files.items) folder.now name.now bytes.now) }
        ensures err { OnErr result (held_by self.new.files.items ≡ held_by self.old.files.items) }
        ensures chosen { self.new.chosen ≡ self.old.chosen }
    {
        let file = Stored {
            folder: String::from_str(self.alloc, folder)?,
            name: name.clone()?,
            bytes: Bytes::from_slice(self.alloc, bytes)?,
        };
        self.files.insert(0, file)?;
        Ok(())
    }

    /// The bytes of a file.
    pub(crate) fn find(&self, folder: &str, name: &Name) -> Option<&Bytes>
        ensures { option_copied result ≡ map.get (held_by self.now.files.items folder.now) name.now }
    {
        find_file(self.files.as_slice(), folder, name)
    }

    pub(crate) fn select(&mut self, folder: &str) -> Result<(), Memory>
        ensures ok { OnOk result (chosen_text self.new.chosen ≡ Some folder.now) }
        ensures err { OnErr result (chosen_text self.new.chosen ≡ chosen_text self.old.chosen) }
        ensures files { self.new.files.items ≡ self.old.files.items }
    {
        self.chosen = Some(String::from_str(self.alloc, folder)?);
        Ok(())
    }

    fn chosen_folder(&self) -> &str
        requires { IsSome (chosen_text self.now.chosen) }
        ensures { chosen_text self.now.chosen ≡ Some result.now }
    {
        match &self.chosen {
            Some(folder) => folder.as_str(),
            None => unreachable!(),
        }
    }

    pub(crate) fn names(&self) -> Result<Vec<Name>, Memory>
        requires { IsSome (chosen_text self.now.chosen) }
        ensures { IfOk result (λ names. IfSome (chosen_text self.now.chosen) (λ folder.
            IsPermutation (map.keys (held_by self.now.files.items folder)) names.items)) }
    {
        list_names(self.alloc, self.files.as_slice(), self.chosen_folder())
    }

    pub(crate) fn read(&self, name: &Name) -> Result<Bytes, Memory>
        requires chosen { IsSome (chosen_text self.now.chosen) }
        requires held { IfSome (chosen_text self.now.chosen) (λ folder. IsSome (map.get (held_by self.now.files.items folder) name.now)) }
        ensures { IfOk result (λ bytes. IfSome (chosen_text self.now.chosen) (λ folder.
            map.get (held_by self.now.files.items folder) name.now ≡ Some bytes)) }
    {
        match self.find(self.chosen_folder(), name) {
            Some(bytes) => Ok(bytes.clone()?),
            None => unreachable!(),
        }
    }

    pub(crate) fn write(&mut self, name: &Name, bytes: &[u8]) -> Result<(), Memory>
        requires { IsSome (chosen_text self.old.chosen) }
        ensures ok { OnOk result (IfSome (chosen_text self.old.chosen) (λ folder.
            held_by self.new.files.items ≡ with_file (held_by self.old.files.items) folder name.now bytes.now)) }
        ensures err { OnErr result (held_by self.new.files.items ≡ held_by self.old.files.items) }
        ensures chosen { chosen_text self.new.chosen ≡ chosen_text self.old.chosen }
    {
        let folder = String::from_str(self.alloc, self.chosen_folder())?;
        self.add(folder.as_str(), name, bytes)
    }
}
