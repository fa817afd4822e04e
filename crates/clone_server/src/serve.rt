//! The whole run: from words, a folder and a script to replies and a status.

ghost use Rattle.std.specs.Prelude.{◌≡◌, List, ℕ, [], Option, Some, IsSome, Result, IfOk};
ghost use Rattle.go_base.specs.Package.{IsPackage};
ghost use Rattle.port_io.specs.Held.{Held};
ghost use Rattle.clone_server.specs.Words.{said_of, texts_of, words_of, usage};
ghost use Rattle.clone_server.specs.Opening.{opened};
ghost use Rattle.clone_server.specs.Taking.{outcome_of};
ghost use Rattle.clone_server.specs.Session.{outcome_text, outcome_status};
ghost use Rattle.clone_server.specs.Serving.{CountsRun};
ghost use Rattle.clone_server.specs.Made.{made, made_script};
ghost use Rattle.clone_server.specs.Run.{CountsAll, CountsEnd, Closes, RunsFiles, RunsFolder, RunsSaid, RunsWords, EndsBy, EndsFor, EndsWith, IsEndStatus, nothing_held, status_in};
ghost use Rattle.clone_server.specs.declared.stop.Stop.{Stop};

use crate::laws::made_scripts_are_done;
use crate::made::{MADE_SCRIPT, made};
use crate::outside::write_all;
use crate::session::serve_commands;
use crate::stop::Stop;
use crate::workspace::Workspace;
use crate::{End, OpenError, USAGE, Words, WordsError, open_folder, words_of};
use clone_script::bad_reply;
use go_base::{Bytes, FileText};
use port_io::{Folder, Sink, Source, SureFolder, SureSource};
use std::alloc::Global;

/// Ends a run whose script ended so.
fn finish<K: Sink>(alloc: Global, end: End, out: &mut K) -> Result<u8, Stop>
    ensures status { IfOk result (λ n. n ≡ outcome_status (outcome_of end)) }
    ensures count { CountsEnd result (K.faults out.old) (K.faults out.new) }
    ensures told { (before : List ℕ) → K.written out.old ≡ Some before → Closes (outcome_text (outcome_of end)) (outcome_status (outcome_of end)) before result (K.written out.new) }
{
    match end {
        End::Done => Ok(0),
        End::Long => Ok(9),
        End::Bad { offset } => {
            let line = bad_reply(alloc, offset)?;
            write_all(out, line.as_slice())?;
            Ok(3)
        }
    }
}

/// Ends a run whose words are not taken.
fn refuse<K: Sink>(out: &mut K) -> Result<u8, Stop>
    ensures status { IfOk result (λ n. n ≡ 2) }
    ensures count { CountsEnd result (K.faults out.old) (K.faults out.new) }
    ensures told { (before : List ℕ) → K.written out.old ≡ Some before → Closes usage 2 before result (K.written out.new) }
{
    write_all(out, USAGE)?;
    Ok(2)
}

/// Serves the session that begins at these files.
fn serve_files<W: Workspace, F: Folder, S: Source, K: Sink>(
    alloc: Global,
    texts: Vec<FileText>,
    said: Words,
    folder: &mut F,
    script: &mut S,
    out: &mut K,
) -> Result<u8, Stop>
    requires texts { IsPackage texts.items }
    requires chosen { IsSome (F.chosen folder.old) }
    ensures status { IfOk result IsEndStatus }
    ensures reading { F.reading_faults folder.new ≡ F.reading_faults folder.old }
    ensures counts { CountsRun result (F.writing_faults folder.old) (F.writing_faults folder.new) (S.faults script.old) (S.faults script.new) (K.faults out.old) (K.faults out.new) }
    ensures told { (held : Held) (dir before all : List ℕ) → F.held folder.old ≡ Some held → F.chosen folder.old ≡ Some dir → K.written out.old ≡ Some before → S.left script.old ≡ Some all →
        RunsFiles (W.Answers (record { min = said.entry.min; mass = said.entry.mass })) dir (record { files = texts.items; held = held }) all before result (F.held folder.new) (K.written out.new) (S.left script.new) }
{
    let mut workspace = W::load(alloc, texts, said.min, said.mass)?;
    let end = serve_commands(alloc, &mut workspace, folder, script, out)?;
    finish(alloc, end, out)
}

/// Serves the session that begins at the files of the folder that the words name.
fn serve_folder<W: Workspace, F: Folder, S: Source, K: Sink>(
    alloc: Global,
    said: Words,
    folder: &mut F,
    script: &mut S,
    out: &mut K,
) -> Result<u8, Stop>
    ensures status { IfOk result IsEndStatus }
    ensures counts { CountsAll result (F.reading_faults folder.old) (F.reading_faults folder.new) (F.writing_faults folder.old) (F.writing_faults folder.new) (S.faults script.old) (S.faults script.new) (K.faults out.old) (K.faults out.new) }
    ensures told { (held : Held) (before all : List ℕ) → F.held folder.old ≡ Some held → K.written out.old ≡ Some before → S.left script.old ≡ Some all →
        RunsFolder (W.Answers (record { min = said.entry.min; mass = said.entry.mass })) said.entry.dir.now (opened (held said.entry.dir.now)) held all before result (F.held folder.new) (K.written out.new) (S.left script.new) }
{
    match open_folder(alloc, folder, said.dir) {
        Ok(texts) => serve_files::<W, F, S, K>(alloc, texts, said, folder, script, out),
        Err(OpenError::Limit) => Ok(9),
        Err(OpenError::Folder) => Err(Stop::Folder),
        Err(OpenError::Memory) => Err(Stop::Memory),
    }
}

/// Serves the session that begins at the package made from a number, over folders and a script in memory.
fn serve_made<W: Workspace, K: Sink>(
    alloc: Global,
    seed: u32,
    said: Words,
    out: &mut K,
) -> Result<u8, Stop>
    ensures status { EndsWith 0 result }
    ensures count { CountsEnd result (K.faults out.old) (K.faults out.new) }
    ensures told { (before : List ℕ) → K.written out.old ≡ Some before → (own : Option Held) × (rest : Option (List ℕ))
        × RunsFiles (W.Answers (record { min = said.entry.min; mass = said.entry.mass })) [] (record { files = made seed; held = nothing_held }) made_script before result own (K.written out.new) rest }
{
    let texts = made(alloc, seed)?;
    let mut script = SureSource::new(Bytes::from_slice(alloc, MADE_SCRIPT)?);
    let mut folder = SureFolder::new(alloc);
    let Ok(()) = folder.select("") else {
        return Err(Stop::Memory);
    };
    let mut workspace = W::load(alloc, texts, said.min, said.mass)?;
    serve_commands(alloc, &mut workspace, &mut folder, &mut script, out)?;
    made_scripts_are_done();
    Ok(0)
}

/// Serves the session that the words ask for: of the folder that they name, or of the package made from their number.
fn serve_said<W: Workspace, F: Folder, S: Source, K: Sink>(
    alloc: Global,
    said: Words,
    folder: &mut F,
    script: &mut S,
    out: &mut K,
) -> Result<u8, Stop>
    ensures status { EndsFor said.entry.make result }
    ensures counts { CountsAll result (F.reading_faults folder.old) (F.reading_faults folder.new) (F.writing_faults folder.old) (F.writing_faults folder.new) (S.faults script.old) (S.faults script.new) (K.faults out.old) (K.faults out.new) }
    ensures told { (held : Held) (before all : List ℕ) → F.held folder.old ≡ Some held → K.written out.old ≡ Some before → S.left script.old ≡ Some all →
        RunsSaid (W.Answers (record { min = said.entry.min; mass = said.entry.mass })) (said_of said.entry) said.entry.make held all before result (F.held folder.new) (K.written out.new) (S.left script.new) }
{
    match said.make {
        None => serve_folder::<W, F, S, K>(alloc, said, folder, script, out),
        Some(seed) => serve_made::<W, K>(alloc, seed, said, out),
    }
}

/// The whole run, whose status or stop it answers.
fn run<W: Workspace, F: Folder, S: Source, K: Sink>(
    alloc: Global,
    words: &[String],
    folder: &mut F,
    script: &mut S,
    out: &mut K,
) -> Result<u8, Stop>
    ensures status { EndsBy (words_of (texts_of words.now)) result }
    ensures counts { CountsAll result (F.reading_faults folder.old) (F.reading_faults folder.new) (F.writing_faults folder.old) (F.writing_faults folder.new) (S.faults script.old) (S.faults script.new) (K.faults out.old) (K.faults out.new) }
    ensures told { (held : Held) (before all : List ℕ) → F.held folder.old ≡ Some held → K.written out.old ≡ Some before → S.left script.old ≡ Some all →
        RunsWords W.Answers (words_of (texts_of words.now)) held all before result (F.held folder.new) (K.written out.new) (S.left script.new) }
{
    match words_of(alloc, words) {
        Ok(said) => serve_said::<W, F, S, K>(alloc, said, folder, script, out),
        Err(WordsError::NotTaken) => refuse(out),
        Err(WordsError::Memory) => Err(Stop::Memory),
    }
}

/// Serves one run and answers its status: the words are taken, the folder that they name is read, and the commands of the
/// script are answered one after the other. Where the words tell a number to make the package from, neither folder nor script is looked
/// at: a script of its own is answered at that package.
///
/// The statuses: 0 done; 2 the words are not taken; 3 the script is bad; 4 the folder was not read; 5 a read of the script
/// failed; 6 a write to the sink failed; 7 a file of a `save` was not written; 8 want of memory; 9 a limit is passed.
pub fn serve<W: Workspace, F: Folder, S: Source, K: Sink>(
    alloc: Global,
    words: &[String],
    folder: &mut F,
    script: &mut S,
    out: &mut K,
) -> u8
    // Whatever the objects tell, a run ends with 0, 3 or 9, or with 2 exactly where the words are not taken, or stops with one
    // of 4 to 8. With a package made from a number it ends with 0, or stops with 6 or 8. A count rose exactly where the run stopped at that object.
    // Where all contents are told, the status, the bytes written and the folders are those of the session that begins at the
    // folder's files, or those up to the stop.
    ensures { (r : Result ℕ Stop) × (result ≡ status_in r) × EndsBy (words_of (texts_of words.now)) r
        × CountsAll r (F.reading_faults folder.old) (F.reading_faults folder.new) (F.writing_faults folder.old) (F.writing_faults folder.new) (S.faults script.old) (S.faults script.new) (K.faults out.old) (K.faults out.new)
        × ((held : Held) (before all : List ℕ) → F.held folder.old ≡ Some held → K.written out.old ≡ Some before → S.left script.old ≡ Some all →
        RunsWords W.Answers (words_of (texts_of words.now)) held all before r (F.held folder.new) (K.written out.new) (S.left script.new)) }
{
    match run::<W, F, S, K>(alloc, words, folder, script, out) {
        Ok(status) => status,
        Err(stop) => stop.status(),
    }
}
