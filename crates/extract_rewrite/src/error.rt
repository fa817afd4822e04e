//! Why windows are not taken out.

ghost use Rattle.std.specs.Prelude.{◌≡◌};
ghost use Rattle.extract_rewrite.specs.declared.error.ExtractError.TheVariants as errors;

use escape_check::report::Refusal;
use go_base::Memory;
use std::alloc::{AllocError, AllocFailed};
use thiserror::Error;

/// Why windows are not taken out into a function.
#[derive(Clone, Copy, Debug, PartialEq, Eq, Error)]
pub enum ExtractError {
    /// They are refused. Beside the codes 3 to 16 of `escape_check` there is 17: the new package would have more bytes, more statements
    /// or more nodes above a node than a package may have. Of the code 17 the window is 0, and there is no place.
    #[error("the windows may not be taken out")]
    Refused(Refusal),
    /// Memory ran out.
    #[error("out of memory")]
    Memory,
}

impl From<AllocError> for ExtractError {
    ghost from_gives = { λ _ e. e ≡ errors.Memory };

    fn from(_error: AllocError) -> ExtractError {
        ExtractError::Memory
    }
}

impl<T: Drop> From<AllocFailed<T>> for ExtractError {
    ghost from_gives = { λ _ e. e ≡ errors.Memory };

    fn from(_error: AllocFailed<T>) -> ExtractError {
        ExtractError::Memory
    }
}

impl From<Memory> for ExtractError {
    ghost from_gives = { λ _ e. e ≡ errors.Memory };

    fn from(_error: Memory) -> ExtractError {
        ExtractError::Memory
    }
}
