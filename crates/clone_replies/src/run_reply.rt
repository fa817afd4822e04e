//! The reply to `run`.

ghost use Rattle.std.specs.Prelude.{◌≡◌, Ok, Result, IfOk};
ghost use Rattle.go_base.specs.Gives.{Gives};
ghost use Rattle.go_meaning.specs.Meaning.{Run};
ghost use Rattle.go_eval.specs.declared.outcome.RunError.{RunError as Refusal};
ghost use Rattle.go_eval.specs.Runs.{outcome_view, refusal, run_package};
ghost use Rattle.go_values.specs.Views.{panic_view};
ghost use Rattle.clone_replies.specs.Replies.{cause_of, ran_words, run_words};

use clone_script::{PanicCause, RunAnswer, RunEnd, run_reply};
use go_base::{Bytes, Memory};
use go_eval::outcome::{Outcome, RunError};
use go_eval::program::run;
use go_typed::checked::Checked;
use go_values::Panic;
use std::alloc::Global;

/// The cause of a panic, as the reply shows it (Go specification, "Run-time panics").
fn cause_of(panic: Panic) -> PanicCause
    ensures { result ≡ cause_of (panic_view panic) }
{
    match panic {
        Panic::Divide => PanicCause::Divide,
        Panic::Shift => PanicCause::Shift,
        Panic::Index => PanicCause::Index,
        Panic::Slicing => PanicCause::Slice,
        Panic::NilCall => PanicCause::NilCall,
        Panic::Make => PanicCause::Make,
        Panic::User => PanicCause::User,
    }
}

/// The reply to a run that came to this.
fn outcome_reply(alloc: Global, outcome: &Outcome) -> Result<Bytes, Memory>
    ensures { IfOk result (λ reply. reply ≡ ran_words (outcome_view outcome.now)) }
{
    match outcome {
        Outcome::Ended { output } => {
            let end = RunEnd::Ended;
            run_reply(alloc, RunAnswer::Ran { end, output })
        }
        Outcome::Panicked { panic, output } => {
            let end = RunEnd::Panicked(cause_of(*panic));
            run_reply(alloc, RunAnswer::Ran { end, output })
        }
        Outcome::Undecided { output } => {
            let end = RunEnd::Undecided;
            run_reply(alloc, RunAnswer::Ran { end, output })
        }
    }
}

/// The reply to what a run answered.
///
/// # Errors
///
/// Want of memory.
pub fn reply_to(alloc: Global, answer: &Result<Outcome, RunError>) -> Result<Bytes, Memory>
    ensures { (a : Result Run Refusal) → Gives outcome_view refusal answer.now a → IfOk result (λ reply. reply ≡ run_words a) }
{
    match answer {
        Ok(outcome) => outcome_reply(alloc, outcome),
        Err(RunError::NoMain) => run_reply(alloc, RunAnswer::NoMain),
        Err(RunError::Memory) => Err(Memory),
    }
}

/// The reply to `run` of a package, with this input and so many turns.
///
/// # Errors
///
/// Want of memory.
pub fn reply(alloc: Global, checked: &Checked, input: &[u8], turns: u64) -> Result<Bytes, Memory>
    ensures { IfOk result (λ reply. reply ≡ run_words (run_package checked.now input.now turns)) }
{
    let answer = run(alloc, checked, input, turns);
    reply_to(alloc, &answer)
}
