//! `x++` and `x op= y`: the place is found once, and read before the other operand is evaluated (Go specification, "Assignment
//! statements", "IncDec statements").

ghost use Rattle.std.specs.Prelude.{◌≡◌, ℕ, [], ◌∷◌, length};
ghost use Rattle.go_types.specs.Tables.{type_of, rights_of};
ghost use Rattle.go_typed.specs.Views.{AllKnown, Known, all_seen};
ghost use Rattle.go_meaning.specs.Computations.{one};
ghost use Rattle.go_meaning.specs.Doings.{at};
ghost use Rattle.go_meaning.specs.Computations as meaning;
ghost use Rattle.go_meaning.specs.Operations as operations;
ghost use Rattle.go_meaning.specs.Operations.{operate, perform};
ghost use Rattle.go_values.specs.Deeds.{deed};
ghost use Rattle.go_eval_plans.specs.Known.{KnownOperation};
ghost use Rattle.go_eval_plans.specs.Views.{operation_view};
ghost use Rattle.go_meaning.specs.Values.{nth};
ghost use Rattle.go_values.specs.Views.{view, views};
ghost use Rattle.go_values.specs.Worlds.{world_view};
ghost use Rattle.go_eval_operations.specs.Performing.{IsPerformed};
ghost use Rattle.go_eval_plans.specs.Machines.{outcome};
ghost use Rattle.go_eval_plans.specs.Programs.{doings};
ghost use Rattle.go_eval_machine.specs.declared.task.What.TheVariants as what;
ghost use Rattle.go_eval_machine.specs.Engines.{Goes, works};
ghost use Rattle.go_eval_machine.specs.Written.{IsWritten};
ghost use Rattle.go_eval_machine.specs.Loaded.{IsLoaded, given_values};

use crate::assigned::{first_two, two};
use crate::computing::computed;
use crate::engine::Engine;
use crate::operands::above;
use crate::stores::store;
use crate::task::What;
use go_eval_operations::perform;
use go_eval_plans::exit::Exit;
use go_eval_plans::machine::Machine;
use go_eval_plans::places::load;
use go_eval_plans::plan::Operation;
use go_typed::checked::Checked;
use go_typed::node::TypedNode;
use go_values::{Panic, Stop, Value, World};
use std::alloc::Global;

/// Reads the value at the place that the first part of a node is, whose operands stand behind the base. Where it isn't read they
/// are dropped.
///
/// # Errors
///
/// The panic of an index; it is undecided where the part is no place; want of memory.
fn loaded(
    engine: &mut Engine<'_>,
    alloc: Global,
    checked: &Checked,
    node: &TypedNode,
    base: usize,
) -> Result<Value, Exit>
    requires { Known (length checked.now.types.shapes) node.now }
    ensures { IsLoaded checked.now node.now base engine.old result engine.new }
{
    let operands = above(&engine.values, base);
    match load(alloc, checked, &node.parts, 0, operands, &engine.machine) {
        Ok(value) => Ok(value),
        Err(exit) => {
            engine.cut(base);
            Err(exit)
        }
    }
}

/// `x++`, behind the operands of x.
pub fn step<'a>(
    engine: &mut Engine<'a>,
    alloc: Global,
    checked: &Checked,
    node: &'a TypedNode,
    base: usize,
    operation: Operation,
) -> Result<(), Exit>
    requires node { Known (length checked.now.types.shapes) node.now }
    requires operation { KnownOperation (length checked.now.types.shapes) operation }
    ensures { Goes checked.now (works checked.now node.now base (what.Step operation)) engine.old result engine.new }
{
    let read = loaded(engine, alloc, checked, node, base)?;
    let answer = store_result(
        alloc,
        checked,
        &node.parts,
        operation,
        above(&engine.values, base),
        read,
        Value::Whole(1),
        &mut engine.machine,
    );
    engine.cut(base);
    answer
}

/// `x op= y`, behind the operands of x.
pub fn read<'a>(
    engine: &mut Engine<'a>,
    alloc: Global,
    checked: &Checked,
    node: &'a TypedNode,
    base: usize,
    operation: Operation,
) -> Result<(), Exit>
    requires node { Known (length checked.now.types.shapes) node.now }
    requires operation { KnownOperation (length checked.now.types.shapes) operation }
    ensures { Goes checked.now (works checked.now node.now base (what.Load operation)) engine.old result engine.new }
{
    let read = loaded(engine, alloc, checked, node, base)?;
    let low = engine.lower(base);
    let value = engine.top();
    engine.push(node, low, What::Operate { operation, value })?;
    engine.give(read)?;
    engine.ask(node, 1)
}

/// Assigns what an operation gives of its operands to the place that the first part is.
///
/// # Errors
///
/// The panic of the operation or of an index; it is undecided where the part is no place; want of memory.
fn store_result(
    alloc: Global,
    checked: &Checked,
    parts: &[Option<TypedNode>],
    operation: Operation,
    operands: &[Value],
    first: Value,
    second: Value,
    machine: &mut Machine,
) -> Result<(), Exit>
    requires parts { AllKnown (length checked.now.types.shapes) parts.now }
    requires operation { KnownOperation (length checked.now.types.shapes) operation }
    ensures is { (n d : ℕ) → IsWritten (outcome (one (operate (operation_view (rights_of checked.now.types) (type_of checked.now.types.shapes) (all_seen checked.now.types parts.now) operation) (view first ∷ view second ∷ [])) ((at (doings checked.now n parts.now) 0).store (views operands.now))) d machine.old) result machine.new }
    ensures turns { machine.new.turns ≡ machine.old.turns }
{
    let world = &mut machine.world;
    let given = operated(alloc, checked, parts, operation, first, second, world)?;
    let value = or_nil(given);
    store(alloc, checked, parts, 0, operands, value, machine)
}

/// What an operation gives of two operands.
///
/// # Errors
///
/// The panic of the operation; want of memory.
fn operated(
    alloc: Global,
    checked: &Checked,
    parts: &[Option<TypedNode>],
    operation: Operation,
    first: Value,
    second: Value,
    world: &mut World,
) -> Result<Option<Value>, Stop>
    requires { KnownOperation (length checked.now.types.shapes) operation }
    ensures { IsPerformed result (perform (operation_view (rights_of checked.now.types) (type_of checked.now.types.shapes) (all_seen checked.now.types parts.now) operation) (view first ∷ view second ∷ []) (world_view world.old)) (world_view world.old) (world_view world.new) }
{
    match computed(operation, &first, &second) {
        Some(answer) => done(answer),
        None => {
            let operands = two(alloc, first, second)?;
            perform(alloc, checked.types(), parts, operation, operands, world)
        }
    }
}

/// What an operation that leaves the world as it is gives.
///
/// # Errors
///
/// The panic of the operation.
fn done(answer: Result<Value, Panic>) -> Result<Option<Value>, Stop>
    ensures { (d : operations.Deed) (w : meaning.World) → d ≡ deed w answer → IsPerformed result d w w }
{
    match answer {
        Ok(value) => Ok(Some(value)),
        Err(panic) => Err(Stop::Panic(panic)),
    }
}

/// What was given; a nil function where nothing was.
fn or_nil(given: Option<Value>) -> Value
    ensures { view result ≡ nth (given_values given) 0 }
{
    match given {
        Some(value) => value,
        None => Value::NilFunction,
    }
}

/// The assignment, behind y: the value of x stands at `value`, and that of y behind it.
pub fn operate<'a>(
    engine: &mut Engine<'a>,
    alloc: Global,
    checked: &Checked,
    node: &'a TypedNode,
    base: usize,
    operation: Operation,
    value: usize,
) -> Result<(), Exit>
    requires node { Known (length checked.now.types.shapes) node.now }
    requires operation { KnownOperation (length checked.now.types.shapes) operation }
    ensures { Goes checked.now (works checked.now node.now base (what.Operate operation value)) engine.old result engine.new }
{
    let (first, second) = first_two(engine.take(alloc, value)?);
    let answer = store_result(
        alloc,
        checked,
        &node.parts,
        operation,
        above(&engine.values, base),
        first,
        second,
        &mut engine.machine,
    );
    engine.cut(base);
    answer
}
