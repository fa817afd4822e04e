//! Assignments to several targets, from left to right.

ghost use Rattle.std.specs.Prelude.{◌≡◌, ◌<◌, ◌≤◌, ◌⊎◌, ℕ, IfOk, IfSome, length, replicate, take};
ghost use Rattle.go_types.specs.Tables.{type_of, rights_of};
ghost use Rattle.go_typed.specs.Views.{AllKnown, Known};
ghost use Rattle.go_meaning.specs.Doings.{stores};
ghost use Rattle.go_meaning.specs.Planning.{zero_in};
ghost use Rattle.go_meaning.specs.Values.{zero_value};
ghost use Rattle.go_eval_plans.specs.Views.{type_in};
ghost use Rattle.go_values.specs.Views.{view, views};
ghost use Rattle.go_eval_plans.specs.Machines.{outcome};
ghost use Rattle.go_eval_plans.specs.Programs.{doings};
ghost use Rattle.go_eval_machine.specs.declared.task.What.TheVariants as what;
ghost use Rattle.go_eval_machine.specs.Engines.{Goes, works};
ghost use Rattle.go_eval_machine.specs.Written.{IsWritten};

use crate::assigned::below;
use crate::engine::Engine;
use crate::operands::above;
use crate::stores::{store, width};
use go_base::Memory;
use go_eval_operations::zero_value;
use go_eval_plans::calls::take_at;
use go_eval_plans::exit::Exit;
use go_eval_plans::machine::Machine;
use go_typed::checked::Checked;
use go_typed::node::TypedNode;
use go_types::TypeId;
use go_values::Value;
use std::alloc::Global;

/// Assigns values to the places that the first parts are, so many, from left to right; each place has its operands among these,
/// in the same order.
///
/// # Errors
///
/// The panic of an index; it is undecided where a part is no place; want of memory.
pub fn store_all(
    alloc: Global,
    checked: &Checked,
    parts: &[Option<TypedNode>],
    targets: usize,
    operands: &[Value],
    values: Vec<Value>,
    machine: &mut Machine,
) -> Result<(), Exit>
    requires { AllKnown (length checked.now.types.shapes) parts.now }
    ensures is { (n d : ℕ) → IsWritten (outcome (stores (take targets (doings checked.now n parts.now)) (views operands.now) (views values.items)) d machine.old) result machine.new }
    ensures turns { machine.new.turns ≡ machine.old.turns }
{
    let mut values = values;
    let mut left = operands;
    let end = lesser(targets, parts.len());
    for number in 0..end {
        let count = width(checked, parts, number)?;
        let value = take_at(&mut values, number);
        store(
            alloc,
            checked,
            parts,
            number,
            below(left, count),
            value,
            machine,
        )?;
        left = above(left, count);
    }
    Ok(())
}

/// The lesser of two numbers.
fn lesser(a: usize, b: usize) -> usize
    ensures first { result ≤ a }
    ensures second { result ≤ b }
    ensures either { (result ≡ a) ⊎ (result ≡ b) }
{
    if a < b { a } else { b }
}

/// The assignment of the values from `first` on to the targets, whose operands stand in front of them.
pub fn store_values<'a>(
    engine: &mut Engine<'a>,
    alloc: Global,
    checked: &Checked,
    node: &'a TypedNode,
    base: usize,
    targets: u32,
    first: usize,
) -> Result<(), Exit>
    requires { Known (length checked.now.types.shapes) node.now }
    ensures { Goes checked.now (works checked.now node.now base (what.Store targets first)) engine.old result engine.new }
{
    let values = engine.take(alloc, first)?;
    let answer = store_all(
        alloc,
        checked,
        &node.parts,
        targets as usize,
        above(&engine.values, base),
        values,
        &mut engine.machine,
    );
    engine.cut(base);
    answer
}

/// So many copies of the zero value of a type (Go specification, "The zero value").
fn zeros(
    alloc: Global,
    checked: &Checked,
    count: usize,
    ty: Option<TypeId>,
) -> Result<Vec<Value>, Memory>
    requires { IfSome ty (λ a. a < length checked.now.types.shapes) }
    ensures { IfOk result (λ vs. views vs.items ≡ replicate count (zero_value (zero_in (rights_of checked.now.types) (type_in (type_of checked.now.types.shapes) ty)))) }
{
    let zero = zero_value(alloc, checked.types(), ty)?;
    copies(alloc, &zero, count)
}

/// So many copies of a value.
fn copies(alloc: Global, value: &Value, count: usize) -> Result<Vec<Value>, Memory>
    ensures { IfOk result (λ vs. views vs.items ≡ replicate count (view value.now)) }
{
    let mut values = Vec::with_capacity(alloc, count)?;
    for number in 0..count {
        values.push(value.copy_of(alloc)?)?;
    }
    Ok(values)
}

/// The assignment of zero values to the targets, behind their operands (Go specification, "Variable declarations").
pub fn store_zeros<'a>(
    engine: &mut Engine<'a>,
    alloc: Global,
    checked: &Checked,
    node: &'a TypedNode,
    base: usize,
    targets: u32,
    ty: Option<TypeId>,
) -> Result<(), Exit>
    requires node { Known (length checked.now.types.shapes) node.now }
    requires ty { IfSome ty (λ a. a < length checked.now.types.shapes) }
    ensures { Goes checked.now (works checked.now node.now base (what.Zero targets ty)) engine.old result engine.new }
{
    let values = zeros(alloc, checked, targets as usize, ty)?;
    let answer = store_all(
        alloc,
        checked,
        &node.parts,
        targets as usize,
        above(&engine.values, base),
        values,
        &mut engine.machine,
    );
    engine.cut(base);
    answer
}
