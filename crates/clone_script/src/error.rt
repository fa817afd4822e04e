ghost use Rattle.std.specs.Prelude.{◌≡◌};

use go_base::Memory;
use std::alloc::{AllocError, AllocFailed};
use thiserror::Error;

/// Why no command was taken from a script.
#[derive(Clone, Copy, Debug, PartialEq, Eq, Error)]
pub enum ScriptError {
    /// The bytes neither begin with a command nor are the beginning of one.
    #[error("no command begins so")]
    Bad = 1,
    #[error("out of memory")]
    Memory,
    /// The bytes end before a command does.
    #[error("the command goes on")]
    More,
}

impl From<AllocError> for ScriptError {
    ghost use Rattle.clone_script.specs.declared.error.ScriptError.TheVariants as errors;

    ghost from_gives = { λ _ e. e ≡ errors.Memory };

    fn from(_error: AllocError) -> ScriptError {
        ScriptError::Memory
    }
}

impl<T: Drop> From<AllocFailed<T>> for ScriptError {
    ghost use Rattle.clone_script.specs.declared.error.ScriptError.TheVariants as errors;

    ghost from_gives = { λ _ e. e ≡ errors.Memory };

    fn from(_error: AllocFailed<T>) -> ScriptError {
        ScriptError::Memory
    }
}

impl From<Memory> for ScriptError {
    ghost use Rattle.clone_script.specs.declared.error.ScriptError.TheVariants as errors;

    ghost from_gives = { λ _ e. e ≡ errors.Memory };

    fn from(_error: Memory) -> ScriptError {
        ScriptError::Memory
    }
}
