//! Windows with their numbers.

ghost use Rattle.std.specs.Prelude.{◌≡◌, ◌++◌, ◌∷◌, [], IfOk, OnOk};
ghost use Rattle.alpha_hash_defs.specs.Packages.{window_hash};
ghost use Rattle.alpha_hash_defs.specs.Sharing.{numbered};
ghost use Rattle.alpha_hash.specs.Starts.{AreStarts};

use crate::starts::Starts;
use go_base::Memory;
use go_typed::checked::Checked;
use go_typed::window::Window;
use std::alloc::Global;

/// Windows of a function with their numbers. The words of each statement list are taken once.
///
/// # Errors
///
/// Want of memory.
pub fn numbers_of(
    alloc: Global,
    checked: &Checked,
    windows: &[Window],
) -> Result<Vec<(Window, u64)>, Memory>
    ensures { IfOk result (λ v. v.items ≡ numbered (window_hash checked.now) windows.now) }
{
    let mut out = Vec::with_capacity(alloc, windows.len())?;
    let mut starts = Starts::new(alloc);
    for window in windows {
        push_numbered(alloc, checked, *window, &mut starts, &mut out)?;
    }
    Ok(out)
}

/// Puts a window with its number behind the others.
fn push_numbered(
    alloc: Global,
    checked: &Checked,
    window: Window,
    starts: &mut Starts,
    out: &mut Vec<(Window, u64)>,
) -> Result<(), Memory>
    requires { AreStarts checked.now starts.old }
    ensures starts { OnOk result (AreStarts checked.now starts.new) }
    ensures pushed { OnOk result (out.new.items ≡ out.old.items ++ (window, window_hash checked.now window) ∷ []) }
{
    let number = starts.number(alloc, checked, window)?;
    out.push((window, number))?;
    Ok(())
}
