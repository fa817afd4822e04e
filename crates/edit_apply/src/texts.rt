ghost use Rattle.std.specs.Prelude.{◌≡◌, ◌<◌, ◌≤◌, ◌-◌, Ok, Some, OnOk, OnErr, IfErr, IfOk, IsSomeAnd, IfSome, min, length, take, drop, slice_get};
ghost use Rattle.std.specs.Option.{option_map};
ghost use Rattle.go_base.specs.Gives.{Gives};
ghost use Rattle.go_base.specs.Package.{IsPackage};
ghost use Rattle.edit_apply.specs.Edited.{bytes_under};
ghost use Rattle.edit_apply.specs.Applied.{AreApplicable, applied};
ghost use Rattle.edit_apply.specs.Answers.{edit_refusal, edit_answer, add_answer, remove_answer};

use crate::edits::{Edit, apply_all};
use crate::places::{added_place, bytes_of, copy_front, edited_place, removed_place};
use go_base::{FileText, Memory, Name};
use std::alloc::{AllocError, AllocFailed, Global};
use std::marker::Model;
use thiserror::Error;

/// Why texts were not changed. The first cause that applies is answered.
#[derive(Clone, Copy, Debug, PartialEq, Eq, Error)]
pub enum EditError {
    #[error("no file of this name")]
    NoFile = 1,
    #[error("not a range of the file")]
    Range,
    #[error("the package would pass a limit")]
    Limit,
    #[error("out of memory")]
    Memory,
    #[error("not the name of a Go file")]
    BadName,
    #[error("a file of this name is held")]
    Held,
}

impl From<AllocError> for EditError {
    ghost use Rattle.edit_apply.specs.declared.texts.EditError.TheVariants as errors;

    ghost from_gives = { λ _ e. e ≡ errors.Memory };

    fn from(_error: AllocError) -> EditError {
        EditError::Memory
    }
}

impl<T: Drop> From<AllocFailed<T>> for EditError {
    ghost use Rattle.edit_apply.specs.declared.texts.EditError.TheVariants as errors;

    ghost from_gives = { λ _ e. e ≡ errors.Memory };

    fn from(_error: AllocFailed<T>) -> EditError {
        EditError::Memory
    }
}

impl From<Memory> for EditError {
    ghost use Rattle.edit_apply.specs.declared.texts.EditError.TheVariants as errors;

    ghost from_gives = { λ _ e. e ≡ errors.Memory };

    fn from(_error: Memory) -> EditError {
        EditError::Memory
    }
}

/// The present texts of a package: its files, in byte order of their names.
#[derive(Drop)]
pub struct Texts {
    alloc: Global,
    items: Vec<FileText>,
}

impl Model for Texts {
    ghost use Rattle.std.specs.Prelude.{List};
    ghost use Rattle.go_base.specs.declared.bytes.FileText.{FileText};
    ghost use Rattle.go_base.specs.Package.{IsPackage};

    ghost Value = { List FileText };

    ghost view = { λ t. t.items.items };

    ghost invariant = { λ t. IsPackage t.items.items };
}

impl Texts {
    /// The texts of a package.
    pub fn load(alloc: Global, files: Vec<FileText>) -> Result<Texts, Memory>
        requires { IsPackage files.items }
        ensures { IfOk result (λ texts. texts ≡ files.items) }
    {
        Ok(Texts {
            alloc,
            items: files,
        })
    }

    /// How many files are held.
    pub fn files(&self) -> u32
        ensures value { result ≡ length self.now }
        ensures package { IsPackage self.now }
    {
        self.items.len() as u32
    }

    /// All files, in the order of names.
    pub fn all(&self) -> &[FileText]
        ensures files { result.now ≡ self.now }
        ensures package { IsPackage self.now }
    {
        &self.items
    }

    /// The name of the file with this number, in the order of names.
    pub fn name_at(&self, file: u32) -> &Name
        requires { file < length self.now }
        ensures { option_map (λ f. f.name) (slice_get self.now file) ≡ Some result.now }
    {
        &self.items[file as usize].name
    }

    /// How many bytes the file of a name has.
    pub fn length(&self, name: &Name) -> Option<u32>
        ensures { result ≡ option_map length (bytes_under self.now name.now) }
    {
        match bytes_of(&self.items, name) {
            Some(bytes) => Some(bytes.len() as u32),
            None => None,
        }
    }

    /// Moves bytes of the file of a name, from an offset on, to the front of the buffer, as many as
    /// fit, and answers how many.
    pub fn text_at(&self, name: &Name, from: u32, buf: &mut [u8]) -> usize
        requires { IsSomeAnd (bytes_under self.now name.now) (λ bytes. from ≤ length bytes) }
        ensures count { IfSome (bytes_under self.now name.now) (λ bytes. result ≡ min (length buf.old) (length bytes - from)) }
        ensures copied { IfSome (bytes_under self.now name.now) (λ bytes. take result buf.new ≡ take result (drop from bytes)) }
        ensures kept { drop result buf.new ≡ drop result buf.old }
    {
        match bytes_of(&self.items, name) {
            Some(bytes) => copy_front(&bytes.as_slice()[from as usize..], buf),
            None => unreachable!(),
        }
    }

    /// Puts new bytes in the place of those from `start` to before `end` of the file of a name.
    pub fn edit(&mut self, name: &Name, start: u32, end: u32, new: &[u8]) -> Result<(), EditError>
        ensures answer { Gives (λ _. self.new) edit_refusal result (edit_answer self.old name.now start end new.now) }
        ensures err { OnErr result (self.new ≡ self.old) }
    {
        let (place, bytes) = edited_place(self.alloc, &self.items, name, start, end, new)?;
        let file = &mut self.items[place];
        file.bytes = bytes;
        Ok(())
    }

    /// Takes in a file of a new name.
    pub fn add(&mut self, name: &Name, bytes: &[u8]) -> Result<(), EditError>
        ensures answer { Gives (λ _. self.new) edit_refusal result (add_answer self.old name.now bytes.now) }
        ensures err { OnErr result (self.new ≡ self.old) }
    {
        let (place, file) = added_place(self.alloc, &self.items, name, bytes)?;
        self.items.insert(place, file)?;
        Ok(())
    }

    /// Takes out the file of a name. The only error is `NoFile`.
    pub fn remove(&mut self, name: &Name) -> Result<(), EditError>
        ensures answer { Gives (λ _. self.new) edit_refusal result (remove_answer self.old name.now) }
        ensures only { IfErr result (λ e. e ≡ EditError.NoFile) }
        ensures err { OnErr result (self.new ≡ self.old) }
    {
        let place = removed_place(&self.items, name)?;
        self.items.remove(place);
        Ok(())
    }

    /// Does all the edits, or none where memory runs out.
    pub fn apply(&mut self, edits: &[Edit]) -> Result<(), Memory>
        requires { AreApplicable self.old edits.now }
        ensures ok { OnOk result (self.new ≡ applied self.old edits.now) }
        ensures err { OnErr result (self.new ≡ self.old) }
    {
        self.items = apply_all(self.alloc, &self.items, edits)?;
        Ok(())
    }
}
