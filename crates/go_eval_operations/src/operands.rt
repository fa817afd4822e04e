//! Operands by their places.

ghost use Rattle.std.specs.Prelude.{◌≡◌, drop};
ghost use Rattle.go_meaning.specs.Values.{nth};
ghost use Rattle.go_meaning.specs.Values as meant;
ghost use Rattle.go_values.specs.Views.{view, views};

use go_values::Value;

/// The operand at a place; `absent`, a nil function, where there is none.
#[tactic(auto, using(go_values::proofs::Views::nth_within, go_values::proofs::Views::nth_beyond))]
pub fn at<'a>(operands: &'a [Value], place: usize, absent: &'a Value) -> &'a Value
    requires { view absent.now ≡ meant.NilFunction }
    ensures { view result.now ≡ nth (views operands.now) place }
{
    if place < operands.len() {
        &operands[place]
    } else {
        absent
    }
}

/// The first operand and the others.
pub fn split(operands: Vec<Value>) -> (Value, Vec<Value>)
    ensures first { view result.0 ≡ nth (views operands.items) 0 }
    ensures rest { views result.1.items ≡ drop 1 (views operands.items) }
{
    let mut operands = operands;
    if operands.is_empty() {
        return (Value::NilFunction, operands);
    }
    let first = operands.remove(0);
    (first, operands)
}

/// The first operand as it is.
pub fn kept(operands: Vec<Value>) -> Value
    ensures { view result ≡ nth (views operands.items) 0 }
{
    split(operands).0
}
