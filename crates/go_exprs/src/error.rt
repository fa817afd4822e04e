//! Why an expression has no typed tree.

ghost use Rattle.std.specs.Prelude.{◌≡◌};
ghost use Rattle.go_exprs.specs.declared.error.TypeError.TheVariants as error;

use go_base::{Fault, Memory};
use thiserror::Error;

/// Why an expression has no typed tree.
#[derive(Clone, Copy, Debug, PartialEq, Eq, Error)]
pub enum TypeError {
    /// A rule on types fails.
    #[error("a type is wrong")]
    Fault(Fault),
    /// Memory ran out.
    #[error("out of memory")]
    Memory,
}

impl From<Memory> for TypeError {
    ghost from_gives = { λ _ e. e ≡ error.Memory };

    fn from(_error: Memory) -> TypeError {
        TypeError::Memory
    }
}
