//! Commands, served one after the other.

ghost use Rattle.std.specs.Prelude.{◌≡◌, List, ℕ, Some, IsSome};
ghost use Rattle.port_io.specs.Held.{Held};
ghost use Rattle.clone_server.specs.Session.{is_save};
ghost use Rattle.clone_server.specs.Serving.{CountsSave, CountsCommand, Gives, Serves};

use crate::outside::{save_all, write_all};
use crate::stop::Stop;
use crate::workspace::Workspace;
use clone_script::{Command, save_reply};
use go_base::Bytes;
use port_io::{Folder, Sink};
use std::alloc::Global;

fn is_save(command: &Command) -> bool
    ensures { result ≡ is_save command.now }
{
    matches!(command, Command::Save)
}

/// Does a command, and gives its reply.
fn reply_to<W: Workspace, F: Folder>(
    alloc: Global,
    workspace: &mut W,
    folder: &mut F,
    command: &Command,
) -> Result<Bytes, Stop>
    requires { IsSome (F.chosen folder.old) }
    ensures reading { F.reading_faults folder.new ≡ F.reading_faults folder.old }
    ensures chosen { F.chosen folder.new ≡ F.chosen folder.old }
    ensures settings { W.settings workspace.new ≡ W.settings workspace.old }
    ensures count { CountsSave result (F.writing_faults folder.old) (F.writing_faults folder.new) }
    ensures told { (held : Held) (dir : List ℕ) → F.held folder.old ≡ Some held → F.chosen folder.old ≡ Some dir →
        Gives (W.Answers (W.settings workspace.old)) dir (record { files = W.files workspace.old; held = held }) command.now result (W.files workspace.new) (F.held folder.new) }
{
    if is_save(command) {
        save_all(alloc, &*workspace, folder)?;
        return Ok(save_reply(alloc, workspace.count())?);
    }
    Ok(workspace.answer(alloc, command)?)
}

/// Serves one command: it is done, and then its reply is written whole.
pub fn serve_command<W: Workspace, F: Folder, K: Sink>(
    alloc: Global,
    workspace: &mut W,
    folder: &mut F,
    out: &mut K,
    command: &Command,
) -> Result<(), Stop>
    requires { IsSome (F.chosen folder.old) }
    ensures reading { F.reading_faults folder.new ≡ F.reading_faults folder.old }
    ensures chosen { F.chosen folder.new ≡ F.chosen folder.old }
    ensures settings { W.settings workspace.new ≡ W.settings workspace.old }
    ensures counts { CountsCommand result (F.writing_faults folder.old) (F.writing_faults folder.new) (K.faults out.old) (K.faults out.new) }
    ensures told { (held : Held) (dir before : List ℕ) → F.held folder.old ≡ Some held → F.chosen folder.old ≡ Some dir → K.written out.old ≡ Some before →
        Serves (W.Answers (W.settings workspace.old)) dir (record { files = W.files workspace.old; held = held }) command.now before result (W.files workspace.new) (F.held folder.new) (K.written out.new) }
{
    let reply = reply_to(alloc, workspace, folder, command)?;
    write_all(out, reply.as_slice())?;
    Ok(())
}
