//! What answers the commands of the program.

ghost use Rattle.std.specs.Prelude.{◌≡◌, ℕ, List, Some, Result};
ghost use Rattle.std.specs.Process.{exit_status};
ghost use Rattle.go_base.specs.Gives.{Meets};
ghost use Rattle.go_base.specs.Package.{IsPackage};
ghost use Rattle.go_scopes.specs.Views.{failure_of};
ghost use Rattle.go_package_defs.specs.Checked.{IsReported, texts_of};
ghost use Rattle.go_package_defs.specs.Refusals.{check_refusal};
ghost use Rattle.port_io.specs.Held.{Held};
ghost use Rattle.clone_server.specs.Words as words;
ghost use Rattle.clone_server.specs.Run.{CountsAll, EndsBy, RunsWords, status_in};
ghost use Rattle.clone_server.specs.declared.stop.Stop.{Stop};
ghost use Rattle.clone_server.specs.Arguments.{words_behind_name};
ghost use Rattle.clone_session.specs.Answers.{Answers};

use alpha_hash::alpha::AlphaHash;
use clone_session::{Check, PackageWorkspace};
use go_base::FileText;
use go_package_defs::{CheckError, CheckedPackage};
use port_io::{Folder, Sink, Source};
use std::alloc::Global;
use std::env::Args;
use std::io;
use std::process::ExitCode;

/// The check of a whole package, from its bytes to its bodies.
#[derive(Drop)]
pub struct PackageCheck;

impl Check for PackageCheck {
    fn check(alloc: Global, texts: &[FileText]) -> Result<CheckedPackage, CheckError> {
        go_package::check(alloc, texts)
    }
}

/// What answers the commands: a workspace over the check of a whole package, which finds windows by their numbers.
pub type Goclone = PackageWorkspace<PackageCheck, AlphaHash>;

/// Runs the program: serves the words behind the first argument, and answers the status to end with.
pub fn run<F: Folder, S: Source, K: Sink>(
    alloc: Global,
    args: io::Result<Args>,
    folder: &mut F,
    script: &mut S,
    out: &mut K,
) -> ExitCode
    // The contract of `serve`, with the replies of a workspace over the check of a whole package.
    ensures { (r : Result ℕ Stop) × (exit_status result ≡ status_in r) × EndsBy (words.words_of (words.texts_of (words_behind_name args))) r
        × CountsAll r (F.reading_faults folder.old) (F.reading_faults folder.new) (F.writing_faults folder.old) (F.writing_faults folder.new) (S.faults script.old) (S.faults script.new) (K.faults out.old) (K.faults out.new)
        × ((held : Held) (before all : List ℕ) → F.held folder.old ≡ Some held → K.written out.old ≡ Some before → S.left script.old ≡ Some all →
        RunsWords Answers (words.words_of (words.texts_of (words_behind_name args))) held all before r (F.held folder.new) (K.written out.new) (S.left script.new)) }
{
    clone_server::run::<Goclone, F, S, K>(alloc, args, folder, script, out)
}
