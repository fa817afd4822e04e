//! Assignments to places (Go specification, "Assignment statements").

ghost use Rattle.std.specs.Prelude.{◌≡◌, ℕ, List, suc, IfOk, length};
ghost use Rattle.go_typed.specs.Views.{AllKnown};
ghost use Rattle.go_meaning.specs.Values as meant;
ghost use Rattle.go_meaning.specs.Doings.{Doing, at};
ghost use Rattle.go_values.specs.Views.{view, views};
ghost use Rattle.go_eval_plans.specs.Machines.{outcome};
ghost use Rattle.go_eval_plans.specs.Programs.{doings};
ghost use Rattle.go_eval_plans.specs.Targets.{Reached};
ghost use Rattle.go_eval_machine.specs.Written.{IsWritten};

use go_base::Memory;
use go_eval_plans::calls::{put_at, take_at};
use go_eval_plans::exit::Exit;
use go_eval_plans::machine::Machine;
use go_eval_plans::parts::part;
use go_eval_plans::places::{Place, as_place, operand, rest};
use go_eval_plans::targets::{Root, Target, place_in, reach};
use go_typed::checked::Checked;
use go_typed::node::TypedNode;
use go_values::{Value, with_inner};
use std::alloc::Global;

/// How many operands a part has as a place.
///
/// # Errors
///
/// There are more than a number can tell.
pub fn width(checked: &Checked, parts: &[Option<TypedNode>], number: usize) -> Result<usize, Memory>
    requires { AllKnown (length checked.now.types.shapes) parts.now }
    ensures { IfOk result (λ w. (n : ℕ) → w ≡ (at (doings checked.now n parts.now) number).width) }
{
    let Some(node) = part(parts, number) else {
        return Ok(0);
    };
    match as_place(checked, node) {
        Place::Local(_) => Ok(0),
        Place::Name(_) => Ok(0),
        Place::Variable(_) => Ok(0),
        Place::Blank => Ok(0),
        Place::Inner => {
            let inner = width(checked, &node.parts, 0)?;
            Ok(inner)
        }
        Place::Field(_) => {
            let whole = width(checked, &node.parts, 0)?;
            Ok(whole)
        }
        Place::Element(_) => {
            let array = width(checked, &node.parts, 0)?;
            one_more(array)
        }
        Place::Cell => Ok(2),
        Place::Case(_) => Ok(0),
        Place::Otherwise => Ok(0),
        Place::Nothing => Ok(0),
    }
}

/// One more than a number.
fn one_more(number: usize) -> Result<usize, Memory>
    ensures { IfOk result (λ n. n ≡ suc number) }
{
    match number.checked_add(1) {
        Some(next) => Ok(next),
        None => Err(Memory),
    }
}

/// Assigns a value to a part of a root. The value of the root is taken out meanwhile, so that nothing is copied that nobody else
/// shares.
///
/// # Errors
///
/// The panic of an index; want of memory.
fn write(alloc: Global, target: Target, value: Value, machine: &mut Machine) -> Result<(), Exit>
    ensures is { (x : Doing) (us : List meant.Value) (d : ℕ) → Reached x us d machine.old target → IsWritten (outcome (x.store us (view value)) d machine.old) result machine.new }
    ensures turns { machine.new.turns ≡ machine.old.turns }
{
    let Target { root, path } = target;
    match root {
        Root::Local(local) => {
            let whole = take_at(&mut machine.frame, local as usize);
            let other = with_inner(alloc, whole, path.as_slice(), value)?;
            put_at(&mut machine.frame, local as usize, other);
            Ok(())
        }
        Root::Variable(variable) => {
            let whole = machine.world.take_variable(variable as usize);
            let other = with_inner(alloc, whole, path.as_slice(), value)?;
            machine.world.write_variable(variable as usize, other);
            Ok(())
        }
        Root::Cell(slice, index) => {
            let whole = machine.world.take_cell(&slice, &index)?;
            let other = with_inner(alloc, whole, path.as_slice(), value)?;
            machine.world.set_cell(&slice, &index, other)?;
            Ok(())
        }
        Root::Nothing => Ok(()),
    }
}

/// Assigns a value to the place that a part is, with these operands.
///
/// # Errors
///
/// The panic of an index; it is undecided where the part is no place; want of memory.
pub fn store(
    alloc: Global,
    checked: &Checked,
    parts: &[Option<TypedNode>],
    number: usize,
    operands: &[Value],
    value: Value,
    machine: &mut Machine,
) -> Result<(), Exit>
    requires { AllKnown (length checked.now.types.shapes) parts.now }
    ensures is { (n d : ℕ) → IsWritten (outcome ((at (doings checked.now n parts.now) number).store (views operands.now) (view value)) d machine.old) result machine.new }
    ensures turns { machine.new.turns ≡ machine.old.turns }
{
    let Some(node) = part(parts, number) else {
        return Err(Exit::Undecided);
    };
    let nil = Value::NilFunction;
    match as_place(checked, node) {
        Place::Local(local) => {
            put_at(&mut machine.frame, local as usize, value);
            Ok(())
        }
        Place::Name(local) => {
            put_at(&mut machine.frame, local as usize, value);
            Ok(())
        }
        Place::Variable(variable) => {
            machine.world.write_variable(variable as usize, value);
            Ok(())
        }
        Place::Blank => Ok(()),
        Place::Inner => store(alloc, checked, &node.parts, 0, operands, value, machine),
        Place::Field(field) => {
            let whole = reach(alloc, checked, &node.parts, 0, operands)?;
            write(alloc, whole.inner(field as usize)?, value, machine)
        }
        Place::Element(length) => {
            let place = place_in(length, operands)?;
            let array = reach(alloc, checked, &node.parts, 0, rest(operands))?;
            write(alloc, array.inner(place)?, value, machine)
        }
        Place::Cell => {
            let slice = operand(operands, 0, &nil);
            machine
                .world
                .set_cell(slice, operand(operands, 1, &nil), value)?;
            Ok(())
        }
        Place::Case(_) => Err(Exit::Undecided),
        Place::Otherwise => Err(Exit::Undecided),
        Place::Nothing => Err(Exit::Undecided),
    }
}
