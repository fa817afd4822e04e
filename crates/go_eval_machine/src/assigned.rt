//! Operands among values.

ghost use Rattle.std.specs.Prelude.{◌≡◌, [], ◌∷◌, take, IfOk};
ghost use Rattle.go_meaning.specs.Values.{nth};
ghost use Rattle.go_values.specs.Views.{view, views};

use go_base::Memory;
use go_eval_plans::calls::take_at;
use go_values::Value;
use std::alloc::Global;

/// The first values.
pub fn below(values: &[Value], base: usize) -> &[Value]
    ensures { views result.now ≡ take base (views values.now) }
{
    if base < values.len() {
        &values[..base]
    } else {
        values
    }
}

/// A list of two values.
///
/// # Errors
///
/// Want of memory.
pub fn two(alloc: Global, first: Value, second: Value) -> Result<Vec<Value>, Memory>
    ensures { IfOk result (λ vs. views vs.items ≡ view first ∷ view second ∷ []) }
{
    let mut values = Vec::with_capacity(alloc, 2)?;
    values.push(first)?;
    values.push(second)?;
    Ok(values)
}

/// The first two of these values; a nil function where there is none.
pub fn first_two(values: Vec<Value>) -> (Value, Value)
    ensures first { view result.0 ≡ nth (views values.items) 0 }
    ensures second { view result.1 ≡ nth (views values.items) 1 }
{
    let mut values = values;
    let second = take_at(&mut values, 1);
    let first = take_at(&mut values, 0);
    (first, second)
}
