//! The line of the numbers of a package.

ghost use Rattle.std.specs.Prelude.{◌≡◌, IfOk};
ghost use Rattle.go_typed.specs.Contents.{Content as Whole};
ghost use Rattle.go_package_defs.specs.Checked.{IsChecked};
ghost use Rattle.clone_session.specs.Session.{IsGoodVerdict};
ghost use Rattle.clone_replies.specs.Numbers.{numbers_in, numbers_reply};

use crate::{Check, Session};
use alpha_hash_defs::window_hash::WindowHash;
use clone_script::stat_reply;
use go_base::{Bytes, Memory};
use std::alloc::Global;

/// The line of the numbers of the present package.
pub fn numbers_line<C: Check, H: WindowHash + Copy + Drop>(
    alloc: Global,
    session: &Session<C, H>,
) -> Result<Bytes, Memory>
    requires { IsGoodVerdict session.now.verdict }
    ensures { IfOk result (λ reply. (c : Whole) → IsChecked session.now.texts c → reply ≡ numbers_reply (numbers_in session.now.bounds session.now.texts c)) }
{
    let n = session.stat()?;
    stat_reply(
        alloc,
        n.files,
        n.bytes,
        n.functions,
        n.windows,
        n.hashes,
        n.classes,
    )
}
