//! The run of a package.

ghost use Rattle.std.specs.Prelude.{◌≡◌, Some, IfOk};
ghost use Rattle.go_base.specs.Gives.{Gives};
ghost use Rattle.go_typed.specs.Packages.{counts_from, no_counts};
ghost use Rattle.go_tree.specs.Declarations.{is_variable};
ghost use Rattle.go_eval.specs.Runs.{Begins, outcome_view, refusal, run_by, run_package};

use crate::entry::main_number;
use crate::outcome::{Outcome, RunError, outcome_of};
use crate::steps::{DEPTH, run_program};
use go_base::Memory;
use go_eval_machine::engine::Engine;
use go_eval_plans::machine::Machine;
use go_tree::context::Entity;
use go_tree::object::Declared;
use go_typed::checked::Checked;
use go_values::World;
use std::alloc::Global;

/// Whether it is a variable.
fn is_variable(declared: &Declared) -> bool
    ensures { result ≡ is_variable declared.now.entity }
{
    matches!(declared.entity, Entity::Variable | Entity::Parameter)
}

/// How many variables there are among these objects.
fn variable_count(objects: &[Declared]) -> usize
    ensures { result ≡ (counts_from no_counts objects.now).variables }
{
    let mut count: usize = 0;
    for object in objects {
        if is_variable(object) {
            count += 1;
        }
    }
    count
}

/// The state in which a run begins.
///
/// # Errors
///
/// Want of memory.
fn first_machine(
    alloc: Global,
    checked: &Checked,
    input: &[u8],
    turns: u64,
) -> Result<Machine, Memory>
    ensures { IfOk result (λ m. Begins checked.now input.now turns m) }
{
    let count = variable_count(checked.uses().package_objects());
    let bytes = input.to_vec(alloc)?;
    let world = World::new(alloc, count, bytes)?;
    Ok(Machine {
        frame: Vec::new(alloc),
        world,
        turns,
    })
}

/// Runs a package whose function of this number is `main`.
///
/// # Errors
///
/// Want of memory.
fn run_from(
    alloc: Global,
    checked: &Checked,
    input: &[u8],
    turns: u64,
    main: usize,
) -> Result<Outcome, RunError>
    ensures { Gives outcome_view refusal result (run_by checked.now input.now turns (Some main)) }
{
    let machine = first_machine(alloc, checked, input, turns)?;
    let mut engine = Engine {
        tasks: Vec::new(alloc),
        values: Vec::new(alloc),
        machine,
        depth: DEPTH,
    };
    let answer = run_program(&mut engine, alloc, checked, main);
    outcome_of(alloc, &engine.machine, &answer)
}

/// Runs a package with this input and so many turns: its variables are initialised in the order of files and places, then
/// `main` is called (Go specification, "Program initialization and execution"). A call spends a turn, and so does each turn of
/// a loop; calls go no deeper than `DEPTH`.
///
/// # Errors
///
/// `NoMain` exactly where the package isn't named `main` or has no function `main`; also want of memory.
pub fn run(alloc: Global, checked: &Checked, input: &[u8], turns: u64) -> Result<Outcome, RunError>
    ensures { Gives outcome_view refusal result (run_package checked.now input.now turns) }
{
    match main_number(checked) {
        Some(main) => run_from(alloc, checked, input, turns, main),
        None => Err(RunError::NoMain),
    }
}
