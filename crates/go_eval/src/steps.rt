//! The parts of a run: trees, the package's variables, and the call of `main`.

ghost use Rattle.std.specs.Prelude.{◌≡◌, [], length, slice_get};
ghost use Rattle.std.specs.Option.{option_map};
ghost use Rattle.go_typed.specs.Views.{Known};
ghost use Rattle.go_eval.specs.Ends.{IsRan};
ghost use Rattle.go_eval.specs.Runs.{AreKnown, depth, tree_run, trees_run, main_run, program_run};

use crate::apply::call;
use crate::tasks::{run_tasks, wants_memory};
use go_eval_machine::engine::Engine;
use go_eval_machine::task::What;
use go_eval_plans::exit::Exit;
use go_typed::checked::Checked;
use go_typed::func::TypedFunc;
use go_typed::node::TypedNode;
use std::alloc::Global;

/// How deep calls may go; `main` runs at depth 1.
pub const DEPTH: u32 = 100_000;

/// Drops all tasks and values, so that something else can be run in the same state.
fn reset(engine: &mut Engine<'_>)
    ensures tasks { engine.new.tasks.items ≡ [] }
    ensures values { engine.new.values.items ≡ [] }
    ensures machine { engine.new.machine ≡ engine.old.machine }
    ensures depth { engine.new.depth ≡ depth }
{
    engine.tasks.clear();
    engine.values.clear();
    engine.depth = DEPTH;
}

/// Runs a tree.
///
/// # Errors
///
/// What isn't next behind it; also want of memory.
fn run_tree<'a>(
    engine: &mut Engine<'a>,
    alloc: Global,
    checked: &'a Checked,
    node: &'a TypedNode,
) -> Result<(), Exit>
    requires { Known (length checked.now.types.shapes) node.now }
    ensures { IsRan (tree_run checked.now node.now) engine.old.machine result engine.new.machine }
{
    reset(engine);
    engine.push(node, 0, What::Value)?;
    run_tasks(engine, alloc, checked, Ok(()))
}

/// Runs trees one after the other.
///
/// # Errors
///
/// What isn't next behind one of them; also want of memory.
fn run_trees<'a>(
    engine: &mut Engine<'a>,
    alloc: Global,
    checked: &'a Checked,
    nodes: &'a [TypedNode],
) -> Result<(), Exit>
    requires { AreKnown (length checked.now.types.shapes) nodes.now }
    ensures { IsRan (trees_run checked.now nodes.now) engine.old.machine result engine.new.machine }
{
    for node in nodes {
        run_tree(engine, alloc, checked, node)?;
    }
    Ok(())
}

/// Initialises the package's variables in the order of files and places (Go specification, "Package initialization").
///
/// # Errors
///
/// What isn't next behind one of them; also want of memory.
fn run_variables<'a>(
    engine: &mut Engine<'a>,
    alloc: Global,
    checked: &'a Checked,
) -> Result<(), Exit>
    ensures { IsRan (trees_run checked.now checked.now.variables) engine.old.machine result engine.new.machine }
{
    let _types = checked.types();
    run_trees(engine, alloc, checked, checked.variables())
}

/// The function of this number, if there is one.
fn function_at(checked: &Checked, number: usize) -> Option<&TypedFunc>
    ensures { slice_get checked.now.functions number ≡ option_map (λ f. f.now) result }
{
    checked.functions().get(number)
}

/// Calls the function of this number without arguments.
///
/// # Errors
///
/// What isn't next behind the call; also want of memory.
fn run_main<'a>(
    engine: &mut Engine<'a>,
    alloc: Global,
    checked: &'a Checked,
    main: usize,
) -> Result<(), Exit>
    ensures { IsRan (main_run checked.now main) engine.old.machine result engine.new.machine }
{
    reset(engine);
    let _types = checked.types();
    let function = function_at(checked, main);
    let operands = Vec::new(alloc);
    let answer = call(engine, alloc, function, operands);
    if wants_memory(&answer) {
        return answer;
    }
    run_tasks(engine, alloc, checked, answer)
}

/// Initialises the package's variables, then calls the function of this number (Go specification, "Program execution").
///
/// # Errors
///
/// What isn't next behind the call; also want of memory.
pub fn run_program<'a>(
    engine: &mut Engine<'a>,
    alloc: Global,
    checked: &'a Checked,
    main: usize,
) -> Result<(), Exit>
    ensures { IsRan (program_run checked.now main) engine.old.machine result engine.new.machine }
{
    run_variables(engine, alloc, checked)?;
    run_main(engine, alloc, checked, main)
}
