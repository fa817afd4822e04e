//! Faults of expressions, placed by tokens.

ghost use Rattle.std.specs.Prelude.{◌≡◌, Some};
ghost use Rattle.go_exprs_rules.specs.Faults.{before, earlier};

use go_base::{FaultCode, Memory};
use std::alloc::{AllocError, AllocFailed};

/// A rule that fails at the tokens from `first` up to `last`, without `last`.
#[derive(Clone, Copy, Debug, PartialEq, Eq)]
pub struct TypeFault {
    pub code: FaultCode,
    pub first: u32,
    pub last: u32,
}

/// Where a rule is judged: the tokens from `first` up to `last`, without `last`.
#[derive(Clone, Copy, Debug, PartialEq, Eq)]
pub struct Place {
    pub first: u32,
    pub last: u32,
}

impl Place {
    /// The fault of a rule that fails here.
    pub fn fault(self, code: FaultCode) -> TypeFault
        ensures { result ≡ record { code = code; first = self.first; last = self.last } }
    {
        TypeFault {
            code,
            first: self.first,
            last: self.last,
        }
    }
}

impl TypeFault {
    /// Whether its place is less, or at one place its code.
    fn is_before(&self, other: &TypeFault) -> bool
        ensures { result ≡ before self.now other.now }
    {
        if self.first != other.first {
            return self.first < other.first;
        }
        if self.last != other.last {
            return self.last < other.last;
        }
        self.code.number() < other.code.number()
    }
}

/// The first of two faults, where there is one.
#[tactic(auto, unfolding(crate::specs::Faults::sooner))]
pub fn earlier(one: Option<TypeFault>, other: Option<TypeFault>) -> Option<TypeFault>
    ensures { result ≡ earlier one other }
{
    match (one, other) {
        (Some(one), Some(other)) => Some(if other.is_before(&one) { other } else { one }),
        (Some(one), None) => Some(one),
        (None, other) => other,
    }
}

/// The first of two faults, of which one may be none.
#[tactic(auto, unfolding(crate::specs::Faults::sooner))]
pub fn or_earlier(one: Option<TypeFault>, other: TypeFault) -> TypeFault
    ensures { earlier one (Some other) ≡ Some result }
{
    match one {
        Some(one) => if other.is_before(&one) { other } else { one },
        None => other,
    }
}

/// Why there is no typed tree.
#[derive(Clone, Copy, Debug, PartialEq, Eq, Drop)]
pub enum TypeError {
    /// A rule fails.
    Fault(TypeFault),
    Memory,
}

impl From<TypeFault> for TypeError {
    ghost use Rattle.std.specs.Prelude.{◌≡◌};
    ghost use Rattle.go_exprs_rules.specs.declared.fault.TypeError.TheVariants as errors;

    ghost from_gives = { λ f e. e ≡ errors.Fault f };

    fn from(fault: TypeFault) -> TypeError {
        TypeError::Fault(fault)
    }
}

impl From<Memory> for TypeError {
    ghost use Rattle.std.specs.Prelude.{◌≡◌};
    ghost use Rattle.go_exprs_rules.specs.declared.fault.TypeError.TheVariants as errors;

    ghost from_gives = { λ _ e. e ≡ errors.Memory };

    fn from(_error: Memory) -> TypeError {
        TypeError::Memory
    }
}

impl From<AllocError> for TypeError {
    ghost use Rattle.std.specs.Prelude.{◌≡◌};
    ghost use Rattle.go_exprs_rules.specs.declared.fault.TypeError.TheVariants as errors;

    ghost from_gives = { λ _ e. e ≡ errors.Memory };

    fn from(_error: AllocError) -> TypeError {
        TypeError::Memory
    }
}

impl<T: Drop> From<AllocFailed<T>> for TypeError {
    ghost use Rattle.std.specs.Prelude.{◌≡◌};
    ghost use Rattle.go_exprs_rules.specs.declared.fault.TypeError.TheVariants as errors;

    ghost from_gives = { λ _ e. e ≡ errors.Memory };

    fn from(_error: AllocFailed<T>) -> TypeError {
        TypeError::Memory
    }
}
