//! What nodes are as places.

ghost use Rattle.std.specs.Prelude.{◌≡◌, ℕ, drop, length};
ghost use Rattle.go_typed.specs.Views.{AllKnown, Known};
ghost use Rattle.go_meaning.specs.Values.{NilFunction, nth};
ghost use Rattle.go_meaning.specs.Doings.{at};
ghost use Rattle.go_values.specs.Views.{view, views};
ghost use Rattle.go_eval_plans.specs.Machines.{IsRead};
ghost use Rattle.go_typed.specs.declared.node.TypedNode.TheViews.{out-TypedNode};
ghost use Rattle.go_eval_plans.specs.Places.{place_of, place_doing, IsPlace};
ghost use Rattle.go_eval_plans.specs.Programs.{doing, doings};

use crate::exit::Exit;
use crate::form_plan::plan_of;
use crate::machine::Machine;
use crate::parts::part;
use crate::plan::Plan;
use go_typed::checked::Checked;
use go_typed::node::TypedNode;
use go_values::{Value, element, field};
use std::alloc::Global;

/// What a node is as a place (Go specification, "Assignment statements"), and which clause of a switch it is.
#[derive(Clone, Copy, Debug)]
pub enum Place {
    Local(u32),
    /// A local that is declared.
    Name(u32),
    Variable(u32),
    Blank,
    /// The place that its first part is.
    Inner,
    /// A field of its first part.
    Field(u32),
    /// An element of the array of this length that its first part is.
    Element(u32),
    /// An element of a slice.
    Cell,
    /// A clause of a switch with so many expressions.
    Case(u32),
    /// The default clause.
    Otherwise,
    Nothing,
}

/// The place of a node with this plan.
fn of_plan(plan: Plan) -> Place
    ensures { result ≡ place_of plan }
{
    match plan {
        Plan::Local(number) => Place::Local(number),
        Plan::Declare(number) => Place::Name(number),
        Plan::Variable(number) => Place::Variable(number),
        Plan::Ignore => Place::Blank,
        Plan::Inner => Place::Inner,
        Plan::FieldOf(field) => Place::Field(field),
        Plan::ElementOf(length) => Place::Element(length),
        Plan::CellOf => Place::Cell,
        Plan::CaseOf(values) => Place::Case(values),
        Plan::Otherwise => Place::Otherwise,
        _ => Place::Nothing,
    }
}

/// What a node is as a place.
pub fn as_place(checked: &Checked, node: &TypedNode) -> Place
    requires { Known (length checked.now.types.shapes) node.now }
    ensures { (n : ℕ) → IsPlace (doing checked.now n node.now) (place_doing result (doings checked.now n (out-TypedNode node.now).parts.items)) }
{
    of_plan(plan_of(checked.types(), node.form, &node.sort, &node.parts))
}

/// The operand of this number; `nil` where there is none.
#[tactic(auto, using(go_values::proofs::Views::nth_within, go_values::proofs::Views::nth_beyond, go_values::proofs::Views::view_nil))]
pub fn operand<'a>(operands: &'a [Value], number: usize, nil: &'a Value) -> &'a Value
    requires { view nil.now ≡ NilFunction }
    ensures { view result.now ≡ nth (views operands.now) number }
{
    if number < operands.len() {
        &operands[number]
    } else {
        nil
    }
}

/// The operands behind the first one.
pub fn rest(operands: &[Value]) -> &[Value]
    ensures { result.now ≡ drop 1 operands.now }
{
    if operands.is_empty() {
        operands
    } else {
        &operands[1..]
    }
}

/// The value at the place that a part is, with these operands; a nil function where nothing stands there.
pub fn load(
    alloc: Global,
    checked: &Checked,
    parts: &[Option<TypedNode>],
    number: usize,
    operands: &[Value],
    machine: &Machine,
) -> Result<Value, Exit>
    requires { AllKnown (length checked.now.types.shapes) parts.now }
    ensures { (n d : ℕ) → IsRead ((at (doings checked.now n parts.now) number).load (views operands.now)) d machine.now result }
{
    let Some(node) = part(parts, number) else {
        return Err(Exit::Undecided);
    };
    let nil = Value::NilFunction;
    match as_place(checked, node) {
        Place::Local(local) => Ok(operand(&machine.frame, local as usize, &nil).copy_of(alloc)?),
        Place::Name(local) => Ok(operand(&machine.frame, local as usize, &nil).copy_of(alloc)?),
        Place::Variable(variable) => Ok(machine.world.read_variable(alloc, variable as usize)?),
        Place::Blank => Ok(Value::NilFunction),
        Place::Inner => load(alloc, checked, &node.parts, 0, operands, machine),
        Place::Field(number) => {
            let whole = load(alloc, checked, &node.parts, 0, operands, machine)?;
            Ok(field(alloc, number as usize, &whole)?)
        }
        Place::Element(length) => {
            let whole = load(alloc, checked, &node.parts, 0, rest(operands), machine)?;
            let index = operand(operands, 0, &nil);
            Ok(element(alloc, length as usize, &whole, index)?)
        }
        Place::Cell => {
            let slice = operand(operands, 0, &nil);
            Ok(
                machine
                    .world
                    .cell(alloc, slice, operand(operands, 1, &nil))?,
            )
        }
        Place::Case(_) => Err(Exit::Undecided),
        Place::Otherwise => Err(Exit::Undecided),
        Place::Nothing => Err(Exit::Undecided),
    }
}
