//! Constants, the operations on them, and why one has no value.
ghost use Rattle.std.specs.Prelude.{◌≡◌, IfOk};

use crate::shared::SharedBytes;
use go_base::Memory;
use go_ints::Op;
use std::alloc::{AllocError, AllocFailed};
use thiserror::Error;

/// The value of a constant (Go specification, "Constants").
#[derive(Clone, PartialEq, Eq, Debug, Drop)]
pub enum Const {
    /// A boolean.
    Bool(bool),
    /// An integer, or a rune where the mark is set.
    Int { value: i128, rune: bool },
    /// The bytes of a string.
    Text(SharedBytes),
}

impl Const {
    /// One more owner of the value; the bytes of a string are shared.
    ///
    /// # Errors
    ///
    /// Want of memory.
    pub fn shared(&self) -> Result<Const, Memory>
        ensures { IfOk result (λ c. c ≡ self.now) }
    {
        Ok(self.clone()?)
    }
}

/// A binary operation on constants (Go specification, "Constant expressions").
#[derive(Clone, Copy, PartialEq, Eq, Debug)]
pub enum ConstOp {
    /// An operation on integers. `Add` also joins texts, and `Min` and `Max` have them too.
    Arith(Op),
    /// `==`
    Eq,
    /// `!=`
    Ne,
    /// `<`
    Lt,
    /// `<=`
    Le,
    /// `>`
    Gt,
    /// `>=`
    Ge,
    /// `&&`
    Both,
    /// `||`
    Either,
}

/// Why an operation on constants has no value.
#[derive(Clone, Copy, PartialEq, Eq, Debug, Error)]
pub enum ConstFault {
    /// The value lies outside -2^127 to 2^127-1.
    #[error("the constant is too wide")]
    TooWide,
    /// The divisor is 0.
    #[error("division by zero")]
    DivideZero,
    /// The operation is not defined on these operands, or the count of a shift is negative.
    #[error("the operation is not defined on these operands")]
    Operands,
    #[error("out of memory")]
    Memory,
}

impl From<Memory> for ConstFault {
    ghost use Rattle.std.specs.Prelude.{◌≡◌};
    ghost use Rattle.go_constants.specs.declared.values.ConstFault.TheVariants as faults;

    ghost from_gives = { λ _ e. e ≡ faults.Memory };

    fn from(_error: Memory) -> ConstFault {
        ConstFault::Memory
    }
}

impl From<AllocError> for ConstFault {
    ghost use Rattle.std.specs.Prelude.{◌≡◌};
    ghost use Rattle.go_constants.specs.declared.values.ConstFault.TheVariants as faults;

    ghost from_gives = { λ _ e. e ≡ faults.Memory };

    fn from(_error: AllocError) -> ConstFault {
        ConstFault::Memory
    }
}

impl<T: Drop> From<AllocFailed<T>> for ConstFault {
    ghost use Rattle.std.specs.Prelude.{◌≡◌};
    ghost use Rattle.go_constants.specs.declared.values.ConstFault.TheVariants as faults;

    ghost from_gives = { λ _ e. e ≡ faults.Memory };

    fn from(_error: AllocFailed<T>) -> ConstFault {
        ConstFault::Memory
    }
}
