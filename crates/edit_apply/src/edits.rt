ghost use Rattle.std.specs.Prelude.{◌≡◌, ◌≤◌, IfOk, length};
ghost use Rattle.go_base.specs.Package.{IsPackage};
ghost use Rattle.edit_apply.specs.Applied.{AreApplicable, applied};
ghost use Rattle.edit_apply.specs.Begun.{AreRead, finished, finished_bytes};
ghost use Rattle.edit_apply.specs.Edited.{file_of};

use crate::begun::{Begun, none_begun};
use go_base::{Bytes, FileText, Memory};
use std::alloc::Global;
use std::marker::Model;

/// One replacement: the bytes from `start` to before `end` of the file with the number `file`, in
/// the order of the names, are replaced by `text`.
#[derive(Drop)]
pub struct Edit {
    pub file: u32,
    pub start: u32,
    pub end: u32,
    pub text: Bytes,
}

/// A list of replacements.
#[derive(Drop)]
pub struct Edits {
    items: Vec<Edit>,
}

impl Model for Edits {
    ghost use Rattle.std.specs.Prelude.{List};
    ghost use Rattle.edit_apply.specs.declared.edits.Edit.{Edit};

    ghost Value = { List Edit };

    ghost view = { λ e. e.items.items };
}

impl Edits {
    /// The edits of a `Vec`, which is kept.
    pub fn of(items: Vec<Edit>) -> Edits
        ensures { result ≡ items.items }
    {
        Edits { items }
    }

    /// All the edits.
    pub fn as_slice(&self) -> &[Edit]
        ensures { result.now ≡ self.now }
    {
        self.items.as_slice()
    }
}

/// A file as it was begun, written to its end.
fn finished_file(alloc: Global, file: &FileText, begun: &Begun) -> Result<FileText, Memory>
    requires { begun.now.read ≤ length file.now.bytes }
    ensures { IfOk result (λ after. after ≡ file_of file.now.name (finished_bytes file.now.bytes begun.now)) }
{
    Ok(FileText {
        name: file.name.clone()?,
        bytes: begun.finished(alloc, file.bytes.as_slice())?,
    })
}

/// The files as they were begun, each written to its end.
fn all_finished(alloc: Global, files: &[FileText], begun: &[Begun]) -> Result<Vec<FileText>, Memory>
    requires same { length begun.now ≡ length files.now }
    requires read { AreRead files.now begun.now }
    ensures { IfOk result (λ after. after.items ≡ finished files.now begun.now) }
{
    let mut after = Vec::new(alloc);
    for (place, file) in files.iter().enumerate() {
        let own = &begun[place];
        after.push(finished_file(alloc, file, own)?)?;
    }
    Ok(after)
}

/// The files after all edits. The edits of a file are read from the last one on, which is the one
/// nearest to the file's start. So each file is written once, from its start to its end.
pub(crate) fn apply_all(
    alloc: Global,
    files: &[FileText],
    edits: &[Edit],
) -> Result<Vec<FileText>, Memory>
    requires package { IsPackage files.now }
    requires edits { AreApplicable files.now edits.now }
    ensures value { IfOk result (λ after. after.items ≡ applied files.now edits.now) }
    ensures package { IfOk result (λ after. IsPackage after.items) }
{
    let mut begun = none_begun(alloc, files)?;
    for number in (0..edits.len()).rev() {
        let edit = &edits[number];
        let place = edit.file as usize;
        let bytes = files[place].bytes.as_slice();
        begun[place].write(bytes, edit)?;
    }
    all_finished(alloc, files, &begun)
}
