//! A workspace.

ghost use Rattle.std.specs.Prelude.{◌≡◌, length, slice_get, Some, IfOk, IsTrue};
ghost use Rattle.clone_session.specs.Answers.{are_bounds, Answers, settings_of};

use crate::answers::answer;
use crate::{Check, Session};
use alpha_hash_defs::window_hash::WindowHash;
use clone_script::Command;
use clone_server::Workspace;
use go_base::{Bytes, FileText, Memory};
use std::alloc::Global;

/// A session that answers the commands of a script, over a check and a hash of windows.
#[derive(Drop)]
pub struct PackageWorkspace<C, H: WindowHash> {
    session: Session<C, H>,
}

/// Whether there are windows of from `min` to 32 statements and at least this mass.
fn are_bounds(min: u32, mass: u32) -> bool
    ensures { result ≡ are_bounds min mass }
{
    1 <= min && min <= 32 && 1 <= mass && mass <= 1000
}

impl<C: Check, H: WindowHash + Default + Copy + Drop> Workspace for PackageWorkspace<C, H> {
    ghost use Rattle.clone_session.specs.Answers.{Answers, settings_of};

    ghost files = { λ w. w.session.texts };

    ghost settings = { λ w. settings_of w.session.bounds };

    ghost Answers = { Answers };

    fn load(alloc: Global, texts: Vec<FileText>, min: u32, mass: u32) -> Result<Self, Memory> {
        if !are_bounds(min, mass) {
            return Err(Memory);
        }
        let session = Session::load(alloc, texts, min, mass, H::default())?;
        Ok(PackageWorkspace { session })
    }

    fn answer(&mut self, alloc: Global, command: &Command) -> Result<Bytes, Memory> {
        answer(alloc, &mut self.session, command)
    }

    fn count(&self) -> u32 {
        self.session.files()
    }

    fn file_at(&self, _alloc: Global, file: u32) -> Result<FileText, Memory> {
        self.session.file_at(file)
    }
}
