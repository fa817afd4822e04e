ghost use Rattle.std.specs.Prelude.{◌≡◌, ◌≤◌, OnOk, IfOk, length, map};
ghost use Rattle.edit_apply.specs.Begun.{start, written_to, finished_bytes};

use crate::edits::Edit;
use go_base::{Bytes, FileText, Memory};
use std::alloc::Global;
use std::marker::Model;

/// A file that is being written anew, from its start: where that ends which is read of it, and the
/// bytes that stand for what is read.
#[derive(Drop)]
pub(crate) struct Begun {
    read: usize,
    written: Vec<u8>,
}

impl Model for Begun {
    ghost use Rattle.edit_apply.specs.Begun.{Progress};

    ghost Value = { Progress };

    ghost view = { λ b. record { read = b.read; written = b.written.items } };
}

impl Begun {
    /// A file of which nothing is read.
    fn new(alloc: Global) -> Begun
        ensures { result ≡ start }
    {
        Begun {
            read: 0,
            written: Vec::new(alloc),
        }
    }

    /// Takes over the bytes up to an edit, and then its text.
    pub(crate) fn write(&mut self, bytes: &[u8], edit: &Edit) -> Result<(), Memory>
        requires read { self.old.read ≤ edit.now.start }
        requires within { edit.now.start ≤ length bytes.now }
        ensures { OnOk result (self.new ≡ written_to bytes.now self.old edit.now) }
    {
        let kept = &bytes[self.read..edit.start as usize];
        self.written.extend_from_slice(kept)?;
        self.written.extend_from_slice(edit.text.as_slice())?;
        self.read = edit.end as usize;
        Ok(())
    }

    /// The whole new file: what is written, and the bytes that aren't read.
    pub(crate) fn finished(&self, alloc: Global, bytes: &[u8]) -> Result<Bytes, Memory>
        requires { self.now.read ≤ length bytes.now }
        ensures { IfOk result (λ b. b ≡ finished_bytes bytes.now self.now) }
    {
        let mut all = Vec::from_slice(alloc, self.written.as_slice())?;
        all.extend_from_slice(&bytes[self.read..])?;
        Ok(Bytes::of(all))
    }
}

/// No file is begun.
pub(crate) fn none_begun(alloc: Global, files: &[FileText]) -> Result<Vec<Begun>, Memory>
    ensures { IfOk result (λ all. all.items ≡ map (λ _. start) files.now) }
{
    let mut all = Vec::new(alloc);
    for _file in files {
        all.push(Begun::new(alloc))?;
    }
    Ok(all)
}
