//! What the check says of a package.

ghost use Rattle.std.specs.Prelude.{IfOk, IfSome};
ghost use Rattle.clone_session.specs.Session.{IsOf};

use crate::check::Check;
use edit_apply::Texts;
use go_base::{Fault, Memory};
use go_package_defs::{CheckError, CheckedPackage};
use std::alloc::Global;

/// What the check says of a package.
#[derive(Drop)]
pub enum Verdict {
    /// It type-checks, and with its types it is this.
    Good(CheckedPackage),
    /// It doesn't, and this fault is reported.
    Faulty(Fault),
}

/// What the check says of the present texts.
///
/// # Errors
///
/// Want of memory.
fn verdict_of<C: Check>(alloc: Global, texts: &Texts) -> Result<Verdict, Memory>
    ensures { IfOk result (IsOf texts.now) }
{
    match C::check(alloc, texts.all()) {
        Ok(package) => {
            let _checked = package.package();
            Ok(Verdict::Good(package))
        }
        Err(CheckError::Fault(fault)) => Ok(Verdict::Faulty(fault)),
        Err(CheckError::Memory) => Err(Memory),
    }
}

/// What the check says of the present texts; this, where it was asked already.
///
/// # Errors
///
/// Want of memory.
pub fn judged<C: Check>(
    alloc: Global,
    texts: &Texts,
    known: Option<Verdict>,
) -> Result<Verdict, Memory>
    requires { IfSome known (IsOf texts.now) }
    ensures { IfOk result (IsOf texts.now) }
{
    match known {
        Some(verdict) => Ok(verdict),
        None => verdict_of::<C>(alloc, texts),
    }
}
