//! The commands of a script, until it ends.

ghost use Rattle.std.specs.Prelude.{◌≡◌, List, ℕ, Some, IsSome};
ghost use Rattle.port_io.specs.Held.{Held};
ghost use Rattle.clone_server.specs.Serving.{CountsRun, Runs};

use crate::served::serve_command;
use crate::stop::Stop;
use crate::workspace::Workspace;
use crate::{End, Intake, Step};
use port_io::{Folder, Sink, Source};
use std::alloc::Global;

/// Serves the commands of a script, one after the other: each is done as soon as its bytes came, and its reply is written
/// whole before the next one. Answers how the script ends.
pub fn serve_commands<W: Workspace, F: Folder, S: Source, K: Sink>(
    alloc: Global,
    workspace: &mut W,
    folder: &mut F,
    script: &mut S,
    out: &mut K,
) -> Result<End, Stop>
    requires { IsSome (F.chosen folder.old) }
    ensures reading { F.reading_faults folder.new ≡ F.reading_faults folder.old }
    ensures chosen { F.chosen folder.new ≡ F.chosen folder.old }
    // A count rose exactly where the run stopped at that object.
    ensures counts { CountsRun result (F.writing_faults folder.old) (F.writing_faults folder.new) (S.faults script.old) (S.faults script.new) (K.faults out.old) (K.faults out.new) }
    // Where all contents are told: the commands up to the script's end were answered, or those before the stop.
    ensures told { (held : Held) (dir before all : List ℕ) → F.held folder.old ≡ Some held → F.chosen folder.old ≡ Some dir → K.written out.old ≡ Some before → S.left script.old ≡ Some all →
        Runs (W.Answers (W.settings workspace.old)) dir (record { files = W.files workspace.old; held = held }) all before result (W.files workspace.new) (F.held folder.new) (K.written out.new) (S.left script.new) }
{
    let mut intake = Intake::new(alloc);
    loop {
        match intake.next(alloc, script)? {
            Step::Command(command) => serve_command(alloc, workspace, folder, out, &command)?,
            Step::End(end) => return Ok(end),
        }
    }
}
