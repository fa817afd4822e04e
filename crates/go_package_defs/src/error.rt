//! Why a package is not good.

ghost use Rattle.std.specs.Prelude.{◌≡◌};
ghost use Rattle.go_package_defs.specs.declared.error.CheckError.TheVariants as error;

use go_base::{Fault, Memory};
use std::alloc::{AllocError, AllocFailed};
use thiserror::Error;

/// Why a package has no types.
#[derive(Clone, Copy, Debug, PartialEq, Eq, Error)]
pub enum CheckError {
    /// A rule of the language fails.
    #[error("the package does not type-check")]
    Fault(Fault),
    /// Memory ran out.
    #[error("out of memory")]
    Memory,
}

impl From<AllocError> for CheckError {
    ghost from_gives = { λ _ e. e ≡ error.Memory };

    fn from(_error: AllocError) -> CheckError {
        CheckError::Memory
    }
}

impl From<Memory> for CheckError {
    ghost from_gives = { λ _ e. e ≡ error.Memory };

    fn from(_error: Memory) -> CheckError {
        CheckError::Memory
    }
}

impl<T: Drop> From<AllocFailed<T>> for CheckError {
    ghost from_gives = { λ _ e. e ≡ error.Memory };

    fn from(_error: AllocFailed<T>) -> CheckError {
        CheckError::Memory
    }
}
