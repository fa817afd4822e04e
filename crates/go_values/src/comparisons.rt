//! Comparisons of values.

ghost use Rattle.std.specs.Prelude.{◌≡◌, [], ◌∷◌};
ghost use Rattle.go_meaning.specs.Values.{Truth, same_value, same_values, valued};
ghost use Rattle.go_meaning.specs.Computations.{World};
ghost use Rattle.go_meaning.specs.Operations.{Compare, Gives, order_of, perform};
ghost use Rattle.go_values.specs.Views.{view, views};

use crate::value::Value;
use go_grammar::kind::Comparison;
use std::cmp::Ordering;

/// Whether a comparison holds (Go specification, "Comparison operators"). Integers are compared by size, and strings by their
/// bytes.
pub fn compare(comparison: Comparison, a: &Value, b: &Value) -> bool
    ensures { (w : World) → perform (Compare comparison) (view a.now ∷ view b.now ∷ []) w ≡ Gives (Truth result ∷ []) w }
{
    match comparison {
        Comparison::Equal => equal(a, b),
        Comparison::NotEqual => !equal(a, b),
        Comparison::Less => order(a, b).is_lt(),
        Comparison::LessEqual => order(a, b).is_le(),
        Comparison::Greater => order(a, b).is_gt(),
        Comparison::GreaterEqual => order(a, b).is_ge(),
    }
}

fn order(a: &Value, b: &Value) -> Ordering
    ensures { result ≡ order_of (view a.now) (view b.now) }
{
    match (a, b) {
        (Value::Text(a), Value::Text(b)) => a.as_slice().cmp(b.as_slice()),
        _ => a.whole().cmp(&b.whole()),
    }
}

/// Whether two values of one comparable type are equal: arrays and structs by all their parts, slices and functions where
/// both are nil (Go specification, "Comparison operators").
#[cycle(equal)]
pub fn equal(a: &Value, b: &Value) -> bool
    ensures { result ≡ same_value (view a.now) (view b.now) }
{
    match (a, b) {
        (Value::Truth(a), Value::Truth(b)) => *a == *b,
        (Value::Whole(a), Value::Whole(b)) => *a == *b,
        (Value::Text(a), Value::Text(b)) => a.as_slice() == b.as_slice(),
        (Value::Parts(a), Value::Parts(b)) => all_equal(
            a.as_ref().as_slice(),
            b.as_ref().as_slice(),
        ),
        (Value::NilSlice, Value::NilSlice) => true,
        (Value::NilFunction, Value::NilFunction) => true,
        _ => false,
    }
}

#[cycle(equal)]
fn all_equal(a: &[Value], b: &[Value]) -> bool
    ensures { result ≡ same_values (valued (views a.now)) (valued (views b.now)) }
{
    if a.len() != b.len() {
        return false;
    }
    for i in 0..a.len() {
        if !equal(&a[i], &b[i]) {
            return false;
        }
    }
    true
}
