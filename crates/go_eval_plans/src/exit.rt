//! What evaluations give, and why they give nothing.

use crate::calls::take_at;
use go_base::Memory;
use go_values::{Panic, Stop, Value};
use std::alloc::{AllocError, AllocFailed, Global};

/// What an evaluation gives: nothing, one value, or a list of values.
#[derive(Debug, Drop)]
pub enum Values {
    Nothing,
    One(Value),
    Many(Vec<Value>),
}

impl Values {
    ghost use Rattle.std.specs.Prelude.{◌≡◌, IfOk};
    ghost use Rattle.go_meaning.specs.Values.{nth};
    ghost use Rattle.go_values.specs.Views.{view, views};
    ghost use Rattle.go_eval_plans.specs.Machines.{values_view};

    /// The first one; a nil function where there is none.
    pub fn first(self) -> Value
        ensures { view result ≡ nth (values_view self) 0 }
    {
        match self {
            Values::Nothing => Value::NilFunction,
            Values::One(value) => value,
            Values::Many(values) => {
                let mut values = values;
                take_at(&mut values, 0)
            }
        }
    }

    /// All of them as a list.
    ///
    /// # Errors
    ///
    /// Want of memory.
    pub fn into_list(self, alloc: Global) -> Result<Vec<Value>, Exit>
        ensures { IfOk result (λ vs. views vs.items ≡ values_view self) }
    {
        match self {
            Values::Nothing => Ok(Vec::new(alloc)),
            Values::One(value) => {
                let mut list = Vec::with_capacity(alloc, 1)?;
                list.push(value)?;
                Ok(list)
            }
            Values::Many(list) => Ok(list),
        }
    }
}

/// Why an evaluation doesn't go on to what comes next.
#[derive(Debug, Drop)]
pub enum Exit {
    /// A `return` with these values (Go specification, "Return statements").
    Return(Values),
    /// A `break` (Go specification, "Break statements").
    Break,
    /// A `continue` (Go specification, "Continue statements").
    Continue,
    /// A `fallthrough` (Go specification, "Fallthrough statements").
    Fallthrough,
    /// The run stops (Go specification, "Run-time panics").
    Panic(Panic),
    /// No turn is left, or no depth.
    Undecided,
    /// Memory is wanting.
    Memory,
}

impl From<Stop> for Exit {
    ghost use Rattle.go_eval_plans.specs.Machines.{IsExitOf};

    ghost from_gives = { λ s e. IsExitOf s e };

    fn from(stop: Stop) -> Exit {
        match stop {
            Stop::Panic(panic) => Exit::Panic(panic),
            Stop::Memory => Exit::Memory,
        }
    }
}

impl From<Panic> for Exit {
    ghost use Rattle.std.specs.Prelude.{◌≡◌};
    ghost use Rattle.go_eval_plans.specs.declared.exit.Exit.TheVariants as exit;

    ghost from_gives = { λ p e. e ≡ exit.Panic p };

    fn from(panic: Panic) -> Exit {
        Exit::Panic(panic)
    }
}

impl From<Memory> for Exit {
    ghost use Rattle.std.specs.Prelude.{◌≡◌};
    ghost use Rattle.go_eval_plans.specs.declared.exit.Exit.TheVariants as exit;

    ghost from_gives = { λ _ e. e ≡ exit.Memory };

    fn from(_error: Memory) -> Exit {
        Exit::Memory
    }
}

impl From<AllocError> for Exit {
    ghost use Rattle.std.specs.Prelude.{◌≡◌};
    ghost use Rattle.go_eval_plans.specs.declared.exit.Exit.TheVariants as exit;

    ghost from_gives = { λ _ e. e ≡ exit.Memory };

    fn from(_error: AllocError) -> Exit {
        Exit::Memory
    }
}

impl<T: Drop> From<AllocFailed<T>> for Exit {
    ghost use Rattle.std.specs.Prelude.{◌≡◌};
    ghost use Rattle.go_eval_plans.specs.declared.exit.Exit.TheVariants as exit;

    ghost from_gives = { λ _ e. e ≡ exit.Memory };

    fn from(_error: AllocFailed<T>) -> Exit {
        Exit::Memory
    }
}
