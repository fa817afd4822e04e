//! Writing to the sink and to the folder.

ghost use Rattle.std.specs.Prelude.{◌≡◌, ◌<◌, List, ℕ, length, Some, IsSome};
ghost use Rattle.port_io.specs.Faults.{CountsWrite};
ghost use Rattle.port_io.specs.Folders.{CountsCall};
ghost use Rattle.port_io.specs.Held.{Held};
ghost use Rattle.clone_server.specs.Serving.{WritesAll, Saves};

use crate::workspace::Workspace;
use port_io::{Folder, FolderError, Sink, SinkError};
use std::alloc::Global;

/// Writes all the bytes.
pub(crate) fn write_all<K: Sink>(out: &mut K, bytes: &[u8]) -> Result<(), SinkError>
    ensures count { CountsWrite result (K.faults out.old) (K.faults out.new) }
    ensures told { (before : List ℕ) → K.written out.old ≡ Some before → WritesAll result before bytes.now (K.written out.new) }
{
    let mut rest = bytes;
    while !rest.is_empty() {
        let n = out.write(rest)?;
        rest = &rest[n..];
    }
    Ok(())
}

/// Writes all present files into the chosen folder, in the order of their names.
pub(crate) fn save_all<W: Workspace, F: Folder>(
    alloc: Global,
    workspace: &W,
    folder: &mut F,
) -> Result<(), FolderError>
    requires { IsSome (F.chosen folder.old) }
    ensures count { CountsCall result (F.writing_faults folder.old) (F.writing_faults folder.new) }
    ensures reading { F.reading_faults folder.new ≡ F.reading_faults folder.old }
    ensures chosen { F.chosen folder.new ≡ F.chosen folder.old }
    ensures told { (held : Held) (dir : List ℕ) → F.held folder.old ≡ Some held → F.chosen folder.old ≡ Some dir → Saves result held dir (W.files workspace.now) (F.held folder.new) }
{
    for number in 0..workspace.count() {
        let file = workspace.file_at(alloc, number)?;
        folder.write(&file.name, file.bytes.as_slice())?;
    }
    Ok(())
}
