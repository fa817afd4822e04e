//! The run of the program, from its arguments to the status that it ends with.

ghost use Rattle.std.specs.Prelude.{◌≡◌, ◌↔◌, ℕ, List, Some, Result, IfOk, IfErr, IsErr, drop};
ghost use Rattle.std.specs.Vec.Iter.{into_iter_items};
ghost use Rattle.std.specs.IoError.{error_kind};
ghost use Rattle.std.specs.Process.{exit_status};
ghost use Rattle.port_io.specs.Held.{Held};
ghost use Rattle.clone_server.specs.Words.{texts_of, words_of};
ghost use Rattle.clone_server.specs.Run.{CountsAll, EndsBy, RunsWords, status_in};
ghost use Rattle.clone_server.specs.declared.stop.Stop.{Stop};
ghost use Rattle.clone_server.specs.Arguments.{words_behind_name};

use crate::Workspace;
use crate::serve::serve;
use port_io::{Folder, Sink, Source};
use std::alloc::{AllocError, Global};
use std::env::Args;
use std::io;
use std::io::ErrorKind;
use std::process::ExitCode;

/// The status where memory ran out.
const NO_MEMORY: u8 = 8;

/// The arguments behind the first.
fn behind_first(alloc: Global, args: Args) -> Result<Vec<String>, AllocError>
    ensures { IfOk result (λ words. words.items ≡ drop 1 (into_iter_items args)) }
{
    let mut args = args;
    let _name = args.next();
    let mut words = Vec::new(alloc);
    for word in args {
        words.push(word)?;
    }
    Ok(words)
}

/// The words behind the program's own name. Arguments that are no text give none, so they are not taken.
fn words_of(alloc: Global, args: io::Result<Args>) -> Result<Vec<String>, AllocError>
    ensures words { IfOk result (λ words. words.items ≡ words_behind_name args) }
    ensures memory { IfErr args (λ error. IsErr result ↔ (error_kind error ≡ ErrorKind.OutOfMemory)) }
{
    match args {
        Ok(args) => behind_first(alloc, args),
        Err(error) if error.kind() == ErrorKind::OutOfMemory => Err(AllocError),
        Err(_) => Ok(Vec::new(alloc)),
    }
}

/// Runs the program: serves the words behind the first argument, and answers the status to end with.
pub fn run<W: Workspace, F: Folder, S: Source, K: Sink>(
    alloc: Global,
    args: io::Result<Args>,
    folder: &mut F,
    script: &mut S,
    out: &mut K,
) -> ExitCode
    // The contract of `serve`, at the words behind the program's own name.
    ensures { (r : Result ℕ Stop) × (exit_status result ≡ status_in r) × EndsBy (words_of (texts_of (words_behind_name args))) r
        × CountsAll r (F.reading_faults folder.old) (F.reading_faults folder.new) (F.writing_faults folder.old) (F.writing_faults folder.new) (S.faults script.old) (S.faults script.new) (K.faults out.old) (K.faults out.new)
        × ((held : Held) (before all : List ℕ) → F.held folder.old ≡ Some held → K.written out.old ≡ Some before → S.left script.old ≡ Some all →
        RunsWords W.Answers (words_of (texts_of (words_behind_name args))) held all before r (F.held folder.new) (K.written out.new) (S.left script.new)) }
{
    match words_of(alloc, args) {
        Ok(words) => ExitCode::from(serve::<W, F, S, K>(alloc, &words, folder, script, out)),
        Err(_) => ExitCode::from(NO_MEMORY),
    }
}
