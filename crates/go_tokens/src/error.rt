//! Why a file has no tokens.

ghost use Rattle.std.specs.Prelude.{◌≡◌};
ghost use Rattle.go_tokens.specs.declared.error.LexError.TheVariants.{Memory};

use go_base::Fault;
use std::alloc::{AllocError, AllocFailed};

/// Why a file has no tokens: its encoding or a token of it is at fault, or memory ran out.
#[derive(Clone, Copy, Debug, PartialEq, Eq)]
pub enum LexError {
    Fault(Fault),
    Memory,
}

impl From<AllocError> for LexError {
    ghost from_gives = { λ _ e. e ≡ Memory };

    fn from(_error: AllocError) -> LexError {
        LexError::Memory
    }
}

impl<T: Drop> From<AllocFailed<T>> for LexError {
    ghost from_gives = { λ _ e. e ≡ Memory };

    fn from(_error: AllocFailed<T>) -> LexError {
        LexError::Memory
    }
}
