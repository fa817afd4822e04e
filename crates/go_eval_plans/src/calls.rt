//! Which function is called, and its frame.

ghost use Rattle.std.specs.Prelude.{◌≡◌, ◌<◌, ◌∷◌, ℕ, List, Option, suc, IfOk, drop, length, replicate, slice_get, slice_set};
ghost use Rattle.go_meaning.specs.Values.{NilFunction, nth};
ghost use Rattle.go_types.specs.Tables.{Table};
ghost use Rattle.go_meaning.specs.Meaning.{frame_of, has_body, with_arguments};
ghost use Rattle.go_values.specs.Views.{view, views};
ghost use Rattle.go_eval_plans.specs.Called.{IsCallee};
ghost use Rattle.go_eval_plans.specs.Programs.{code_of};

use crate::exit::Exit;
use crate::parts::is_there;
use crate::places::operand;
use go_typed::func::TypedFunc;
use go_values::{Panic, Value};
use std::alloc::Global;
use std::mem;

/// The number of the function that the first operand is.
///
/// # Errors
///
/// A nil function.
pub fn callee(operands: &[Value]) -> Result<u32, Exit>
    ensures { IsCallee (views operands.now) result }
{
    let nil = Value::NilFunction;
    match operand(operands, 0, &nil) {
        Value::Function(number) => Ok(*number),
        _ => Err(Exit::Panic(Panic::NilCall)),
    }
}

/// Whether a function has a body.
pub fn has_body(function: &TypedFunc) -> bool
    ensures { (t : Table) → result ≡ has_body (code_of t function.now) }
{
    is_there(&function.root().parts, 0)
}

/// The locals of a function when it is called with the operands behind the first one.
pub fn frame_of(
    alloc: Global,
    function: &TypedFunc,
    operands: Vec<Value>,
) -> Result<Vec<Value>, Exit>
    ensures { IfOk result (λ f. (t : Table) → views f.items ≡ frame_of (code_of t function.now) (drop 1 (views operands.items))) }
{
    let mut frame = nils(alloc, function.locals().len())?;
    let mut operands = operands;
    let parameters = function.parameters();
    for number in 0..parameters.len() {
        let parameter = parameter_at(parameters, number);
        give(&mut frame, parameter, &mut operands, number + 1);
    }
    Ok(frame)
}

/// So many nil functions.
fn nils(alloc: Global, count: usize) -> Result<Vec<Value>, Exit>
    ensures { IfOk result (λ f. views f.items ≡ replicate count NilFunction) }
{
    let mut values = Vec::with_capacity(alloc, count)?;
    for i in 0..count {
        values.push(Value::NilFunction)?;
    }
    Ok(values)
}

/// The local that a parameter is, if it is one.
fn parameter_at(parameters: &[Option<u32>], number: usize) -> Option<u32>
    requires { number < length parameters.now }
    ensures { slice_get parameters.now number ≡ Some result }
{
    parameters[number]
}

/// Moves the operand of a parameter into a frame, where the parameter is a local.
fn give(frame: &mut Vec<Value>, parameter: Option<u32>, operands: &mut Vec<Value>, number: usize)
    ensures { (ps : List (Option ℕ)) → with_arguments (parameter ∷ ps) (drop number (views operands.old.items)) (views frame.old.items) ≡ with_arguments ps (drop (suc number) (views operands.new.items)) (views frame.new.items) }
{
    match parameter {
        Some(local) => move_to(frame, local as usize, operands, number),
        None => {}
    }
}

/// Moves an operand into a frame, where it has the place; a nil function where there is no such operand.
fn move_to(frame: &mut Vec<Value>, local: usize, operands: &mut Vec<Value>, number: usize)
    ensures frame { views frame.new.items ≡ slice_set (views frame.old.items) local (nth (views operands.old.items) number) }
    ensures operands { views operands.new.items ≡ slice_set (views operands.old.items) number NilFunction }
{
    let value = take_at(operands, number);
    put_at(frame, local, value);
}

/// Takes a value out; a nil function is left.
#[tactic(auto, using(go_values::proofs::Views::nth_within, go_values::proofs::Views::nth_beyond, go_values::proofs::Views::view_nil, go_values::proofs::Views::views_set, go_values::proofs::Views::set_beyond))]
pub fn take_at(values: &mut Vec<Value>, number: usize) -> Value
    ensures taken { view result ≡ nth (views values.old.items) number }
    ensures left { views values.new.items ≡ slice_set (views values.old.items) number NilFunction }
{
    if number < values.len() {
        mem::replace(&mut values[number], Value::NilFunction)
    } else {
        Value::NilFunction
    }
}

/// Puts a value at a place, where there is one.
#[tactic(auto, using(go_values::proofs::Views::views_set, go_values::proofs::Views::set_beyond))]
pub fn put_at(values: &mut Vec<Value>, number: usize, value: Value)
    ensures { views values.new.items ≡ slice_set (views values.old.items) number (view value) }
{
    if number < values.len() {
        values[number] = value;
    }
}
