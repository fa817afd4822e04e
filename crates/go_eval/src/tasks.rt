//! The loop over tasks.

ghost use Rattle.std.specs.Prelude.{◌≡◌, false, length};
ghost use Rattle.go_eval_machine.specs.Tasks.{AreFit, IsFit};
ghost use Rattle.go_eval_machine.specs.Engines.{Goes};
ghost use Rattle.go_eval.specs.Ends.{IsDone, goes_by, wants_memory};

use crate::dispatch::dispatch;
use crate::out::out;
use go_eval_machine::engine::Engine;
use go_eval_machine::task::{Task, What};
use go_eval_plans::exit::Exit;
use go_typed::checked::Checked;
use go_typed::node::TypedNode;
use std::alloc::Global;

/// Whether memory is wanting.
pub fn wants_memory(answer: &Result<(), Exit>) -> bool
    ensures { result ≡ wants_memory answer.now }
{
    matches!(answer, Err(Exit::Memory))
}

/// Does a task, or goes out through it, by the answer of the one before.
fn next<'a>(
    engine: &mut Engine<'a>,
    alloc: Global,
    checked: &'a Checked,
    node: &'a TypedNode,
    base: usize,
    what: What,
    answer: Result<(), Exit>,
) -> Result<(), Exit>
    requires { IsFit (length checked.now.types.shapes) node.now what }
    ensures { Goes checked.now (goes_by checked.now node.now base what answer) engine.old result engine.new }
{
    match answer {
        Ok(()) => dispatch(engine, alloc, checked, node, base, what),
        Err(exit) => out(engine, alloc, node, base, what, exit),
    }
}

/// Does tasks until none is left, or goes out through them, by the answer of the step before.
///
/// # Errors
///
/// What isn't next behind all tasks. Memory is also said to be wanting where 2^64 - 1 steps don't do.
pub fn run_tasks<'a>(
    engine: &mut Engine<'a>,
    alloc: Global,
    checked: &'a Checked,
    answer: Result<(), Exit>,
) -> Result<(), Exit>
    requires fit { AreFit (length checked.now.types.shapes) engine.old.tasks.items }
    requires memory { wants_memory answer ≡ false }
    ensures { IsDone checked.now engine.old answer result engine.new }
{
    let mut answer = answer;
    for step in 0..u64::MAX {
        let Some(task) = engine.tasks.pop() else {
            return answer;
        };
        let Task { node, base, what } = task;
        answer = next(engine, alloc, checked, node, base, what, answer);
        if wants_memory(&answer) {
            return answer;
        }
    }
    Err(Exit::Memory)
}
