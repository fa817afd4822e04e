//! Why operations aren't done.

use go_base::Memory;
use std::alloc::{AllocError, AllocFailed};
use thiserror::Error;

/// Why a run stops (Go specification, "Run-time panics").
#[derive(Clone, Copy, Debug, PartialEq, Eq, Error)]
pub enum Panic {
    #[error("division by zero")]
    Divide,
    #[error("negative shift count")]
    Shift,
    #[error("index out of range")]
    Index,
    #[error("slice bounds out of range")]
    Slicing,
    #[error("call of a nil function")]
    NilCall,
    #[error("length or capacity of `make` out of range")]
    Make,
    #[error("panic")]
    User,
}

/// Why an operation isn't done.
#[derive(Clone, Copy, Debug, PartialEq, Eq, Error)]
pub enum Stop {
    #[error("{0}")]
    Panic(Panic),
    #[error("out of memory")]
    Memory,
}

impl From<Panic> for Stop {
    ghost use Rattle.std.specs.Prelude.{◌≡◌};
    ghost use Rattle.go_values.specs.declared.panic.Stop.TheVariants as stop;

    ghost from_gives = { λ p e. e ≡ stop.Panic p };

    fn from(panic: Panic) -> Stop {
        Stop::Panic(panic)
    }
}

impl From<Memory> for Stop {
    ghost use Rattle.std.specs.Prelude.{◌≡◌};
    ghost use Rattle.go_values.specs.declared.panic.Stop.TheVariants as stop;

    ghost from_gives = { λ _ e. e ≡ stop.Memory };

    fn from(_error: Memory) -> Stop {
        Stop::Memory
    }
}

impl From<AllocError> for Stop {
    ghost use Rattle.std.specs.Prelude.{◌≡◌};
    ghost use Rattle.go_values.specs.declared.panic.Stop.TheVariants as stop;

    ghost from_gives = { λ _ e. e ≡ stop.Memory };

    fn from(_error: AllocError) -> Stop {
        Stop::Memory
    }
}

impl<T: Drop> From<AllocFailed<T>> for Stop {
    ghost use Rattle.std.specs.Prelude.{◌≡◌};
    ghost use Rattle.go_values.specs.declared.panic.Stop.TheVariants as stop;

    ghost from_gives = { λ _ e. e ≡ stop.Memory };

    fn from(_error: AllocFailed<T>) -> Stop {
        Stop::Memory
    }
}
