//! What a run comes to.

ghost use Rattle.std.specs.Prelude.{◌≡◌, Ok};
ghost use Rattle.go_base.specs.Gives.{Gives};
ghost use Rattle.go_meaning.specs.Computations.{Outcome as Ending};
ghost use Rattle.go_meaning.specs.Meaning.{run_of};
ghost use Rattle.go_values.specs.Worlds.{world_view};
ghost use Rattle.go_eval_plans.specs.Machines.{IsLeft};
ghost use Rattle.go_eval.specs.Ends.{IsRun};
ghost use Rattle.go_eval.specs.declared.outcome.RunError.TheVariants as errors;
ghost use Rattle.go_eval.specs.Runs.{outcome_view, refusal};

use go_base::Memory;
use go_eval_plans::exit::Exit;
use go_eval_plans::machine::Machine;
use go_values::Panic;
use std::alloc::{AllocError, AllocFailed, Global};
use thiserror::Error;

/// How a run ends, with all that it printed.
#[derive(Debug, Drop)]
pub enum Outcome {
    Ended { output: Vec<u8> },
    /// Go specification, "Run-time panics".
    Panicked { panic: Panic, output: Vec<u8> },
    /// The turns or the depth didn't do.
    Undecided { output: Vec<u8> },
}

/// Why nothing is run.
#[derive(Clone, Copy, Debug, PartialEq, Eq, Error)]
pub enum RunError {
    /// The package isn't named `main`, or it has no function `main`.
    #[error("there is no function `main` of a package `main`")]
    NoMain,
    #[error("out of memory")]
    Memory,
}

impl From<Memory> for RunError {
    ghost from_gives = { λ _ e. e ≡ errors.Memory };

    fn from(_error: Memory) -> RunError {
        RunError::Memory
    }
}

impl From<AllocError> for RunError {
    ghost from_gives = { λ _ e. e ≡ errors.Memory };

    fn from(_error: AllocError) -> RunError {
        RunError::Memory
    }
}

impl<T: Drop> From<AllocFailed<T>> for RunError {
    ghost from_gives = { λ _ e. e ≡ errors.Memory };

    fn from(_error: AllocFailed<T>) -> RunError {
        RunError::Memory
    }
}

/// What a run came to that printed this, where nothing comes next behind all tasks: only a panic, and want of turns or depth,
/// are no end.
fn left(exit: &Exit, output: Vec<u8>) -> Result<Outcome, RunError>
    ensures { (m : Machine) (o : Ending) → output.items ≡ (world_view m.world).output → IsLeft exit.now m o → Gives outcome_view refusal result (Ok (run_of o)) }
{
    match exit {
        Exit::Panic(panic) => Ok(Outcome::Panicked {
            panic: *panic,
            output,
        }),
        Exit::Undecided => Ok(Outcome::Undecided { output }),
        Exit::Memory => Err(RunError::Memory),
        Exit::Return(_) => Ok(Outcome::Ended { output }),
        Exit::Break => Ok(Outcome::Ended { output }),
        Exit::Continue => Ok(Outcome::Ended { output }),
        Exit::Fallthrough => Ok(Outcome::Ended { output }),
    }
}

/// What a run came to, by the answer of the machine.
///
/// # Errors
///
/// Want of memory.
pub fn outcome_of(
    alloc: Global,
    machine: &Machine,
    answer: &Result<(), Exit>,
) -> Result<Outcome, RunError>
    ensures { (o : Ending) → IsRun answer.now machine.now o → Gives outcome_view refusal result (Ok (run_of o)) }
{
    let output = machine.world.output().to_vec(alloc)?;
    match answer {
        Ok(()) => Ok(Outcome::Ended { output }),
        Err(exit) => left(exit, output),
    }
}
