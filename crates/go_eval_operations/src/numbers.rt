//! Operations on integers, booleans and values that are compared.

#![tactic(auto, using(go_values::proofs::Views::view_nil))]

ghost use Rattle.std.specs.Prelude.{◌≡◌, [], ◌∷◌};
ghost use Rattle.go_meaning.specs.Computations.{World};
ghost use Rattle.go_meaning.specs.Operations.{Compare, Complement, Compute, Gives, Negate, Not, Wrap, perform};
ghost use Rattle.go_values.specs.Deeds.{deed};
ghost use Rattle.go_values.specs.Views.{view, views};

use crate::operands::at;
use go_grammar::kind::Comparison;
use go_ints::{Kind, Op};
use go_values::{Panic, Value};

/// The first operand and the second one, by the operator (Go specification, "Arithmetic operators").
pub fn compute(kind: Kind, op: Op, operands: &[Value]) -> Result<Value, Panic>
    ensures { (w : World) → perform (Compute kind op) (views operands.now) w ≡ deed w result }
{
    let absent = Value::NilFunction;
    let left = at(operands, 0, &absent);
    let right = at(operands, 1, &absent);
    go_values::compute(kind, op, left, right)
}

/// The comparison of the first operand and the second one (Go specification, "Comparison operators").
pub fn compare(comparison: Comparison, operands: &[Value]) -> Value
    ensures { (w : World) → perform (Compare comparison) (views operands.now) w ≡ Gives (view result ∷ []) w }
{
    let absent = Value::NilFunction;
    let left = at(operands, 0, &absent);
    let right = at(operands, 1, &absent);
    Value::Truth(go_values::compare(comparison, left, right))
}

/// `!x` (Go specification, "Logical operators").
pub fn not(operands: &[Value]) -> Value
    ensures { (w : World) → perform Not (views operands.now) w ≡ Gives (view result ∷ []) w }
{
    let absent = Value::NilFunction;
    go_values::not(at(operands, 0, &absent))
}

/// `-x` (Go specification, "Arithmetic operators").
pub fn negate(kind: Kind, operands: &[Value]) -> Value
    ensures { (w : World) → perform (Negate kind) (views operands.now) w ≡ Gives (view result ∷ []) w }
{
    let absent = Value::NilFunction;
    go_values::negate(kind, at(operands, 0, &absent))
}

/// `^x` (Go specification, "Arithmetic operators").
pub fn complement(kind: Kind, operands: &[Value]) -> Value
    ensures { (w : World) → perform (Complement kind) (views operands.now) w ≡ Gives (view result ∷ []) w }
{
    let absent = Value::NilFunction;
    go_values::complement(kind, at(operands, 0, &absent))
}

/// The conversion to an integer type (Go specification, "Conversions between numeric types").
pub fn convert(kind: Kind, operands: &[Value]) -> Value
    ensures { (w : World) → perform (Wrap kind) (views operands.now) w ≡ Gives (view result ∷ []) w }
{
    let absent = Value::NilFunction;
    go_values::convert(kind, at(operands, 0, &absent))
}
