//! The reply to `run`.

ghost use Rattle.std.specs.Prelude.{◌≡◌, IfOk};
ghost use Rattle.clone_session.specs.Answers.{IsRun, PackageReply};

use crate::answers::fault_line;
use crate::{Check, Session};
use alpha_hash_defs::window_hash::WindowHash;
use clone_replies::run_reply::reply_to;
use go_base::{Bytes, Memory};
use go_package_defs::CheckError;
use std::alloc::Global;

/// The reply to `run`.
pub fn ran<C: Check, H: WindowHash + Copy + Drop>(
    alloc: Global,
    session: &mut Session<C, H>,
    turns: u64,
    input: &[u8],
) -> Result<Bytes, Memory>
    ensures reply { IfOk result (λ reply. PackageReply (IsRun turns input.now) session.old.texts reply) }
    ensures kept { session.new ≡ session.old }
{
    match session.run_present(input, turns) {
        Ok(answer) => reply_to(alloc, &answer),
        Err(CheckError::Fault(fault)) => fault_line(alloc, session, &fault),
        Err(CheckError::Memory) => Err(Memory),
    }
}
