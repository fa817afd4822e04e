//! Pieces of a script.

ghost use Rattle.std.specs.Prelude.{◌≡◌, ◌<◌, ◌≤◌, List, ℕ, length, Some, IfOk};
ghost use Rattle.clone_server.specs.Taking.{TakesPiece, CountsIntake};

use crate::step::IntakeError;
use port_io::Source;
use std::alloc::Global;

/// Takes a piece of the script, of at most so many bytes: an empty one at its end.
pub(crate) fn read_piece<S: Source>(
    alloc: Global,
    script: &mut S,
    most: usize,
) -> Result<Vec<u8>, IntakeError>
    requires { 0 < most }
    ensures count { CountsIntake result (S.faults script.old) (S.faults script.new) }
    ensures bound { IfOk result (λ piece. length piece.items ≤ most) }
    ensures told { (left : List ℕ) → S.left script.old ≡ Some left → TakesPiece left result (S.left script.new) }
{
    let mut piece = vec![in alloc; 0u8; most]?;
    let n = script.read(&mut piece)?;
    piece.truncate(n);
    Ok(piece)
}
