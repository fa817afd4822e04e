//! What answers the commands of a session.

ghost use Rattle.std.specs.Prelude.{◌≡◌, ◌<◌, ℕ, List, length, slice_get, Some, IfOk};
ghost use Rattle.go_base.specs.declared.bytes.FileText.{FileText};
ghost use Rattle.go_base.specs.Package.{IsPackage};
ghost use Rattle.clone_script.specs.declared.command.Command.{Command};
ghost use Rattle.clone_server.specs.Session.{Settings};

use clone_script::Command;
use go_base::{Bytes, FileText, Memory};
use std::alloc::Global;

/// The present files of a package, and what answers the commands on them. A reply depends on the settings, the present
/// files and the command alone.
pub trait Workspace: Drop {
    /// The present files, in the order of their names.
    ghost files: { Self → List FileText };

    /// The least statements and the least mass of a window.
    ghost settings: { Self → Settings };

    /// With these settings and at these files a command gets this reply, and leaves these files.
    ghost Answers: { Settings → List FileText → Command → List ℕ → List FileText → Type 0 };

    /// A workspace of these files.
    fn load(alloc: Global, texts: Vec<FileText>, min: u32, mass: u32) -> Result<Self, Memory>
        requires { IsPackage texts.items }
        ensures files { IfOk result (λ workspace. files workspace ≡ texts.items) }
        ensures settings { IfOk result (λ workspace. settings workspace ≡ record { min = min; mass = mass }) };

    /// The reply to a command that is neither `save` nor `quit`.
    fn answer(&mut self, alloc: Global, command: &Command) -> Result<Bytes, Memory>
        ensures reply { IfOk result (λ reply. Answers (settings self.old) (files self.old) command.now reply (files self.new)) }
        ensures settings { settings self.new ≡ settings self.old };

    /// How many files there are.
    fn count(&self) -> u32
        ensures { result ≡ length (files self.now) };

    /// A copy of the file with this number, in the order of the names.
    fn file_at(&self, alloc: Global, file: u32) -> Result<FileText, Memory>
        requires { file < length (files self.now) }
        ensures { IfOk result (λ copy. slice_get (files self.now) file ≡ Some copy) };
}
