//! Why names have no meaning.

ghost use Rattle.std.specs.Prelude.{◌≡◌};
ghost use Rattle.go_scopes.specs.declared.error.ResolveError.TheVariants as error;

use go_base::{Fault, Memory};
use std::alloc::{AllocError, AllocFailed};
use thiserror::Error;

/// Why the names of a package were not resolved.
#[derive(Clone, Copy, Debug, PartialEq, Eq, Error)]
pub enum ResolveError {
    /// A rule on clauses or names fails.
    #[error("a name is wrong")]
    Fault(Fault),
    /// Memory ran out.
    #[error("out of memory")]
    Memory,
}

impl From<AllocError> for ResolveError {
    ghost from_gives = { λ _ e. e ≡ error.Memory };

    fn from(_error: AllocError) -> ResolveError {
        ResolveError::Memory
    }
}

impl From<Memory> for ResolveError {
    ghost from_gives = { λ _ e. e ≡ error.Memory };

    fn from(_error: Memory) -> ResolveError {
        ResolveError::Memory
    }
}

impl<T: Drop> From<AllocFailed<T>> for ResolveError {
    ghost from_gives = { λ _ e. e ≡ error.Memory };

    fn from(_error: AllocFailed<T>) -> ResolveError {
        ResolveError::Memory
    }
}
