//! The least and the greatest of several values.

ghost use Rattle.std.specs.Prelude.{◌≡◌, IfOk, drop};
ghost use Rattle.go_meaning.specs.Operations.{compared, picked};
ghost use Rattle.go_meaning.specs.Values.{nth};
ghost use Rattle.go_values.specs.Views.{view, views};

use crate::operands::at;
use go_base::Memory;
use go_grammar::kind::Comparison;
use go_values::{Value, compare};
use std::alloc::Global;

/// Whether a value stands in the comparison to another one.
fn holds(comparison: Comparison, value: &Value, other: &Value) -> bool
    ensures { result ≡ compared comparison (view value.now) (view other.now) }
{
    compare(comparison, value, other)
}

/// The first operand that no other stands in the comparison to: the least by `<`, the greatest by `>` (Go specification, "Min
/// and max"). A string shares its bytes with the copy.
///
/// # Errors
///
/// Want of memory.
pub fn picked(alloc: Global, comparison: Comparison, operands: &[Value]) -> Result<Value, Memory>
    ensures { IfOk result (λ v. view v ≡ picked comparison (nth (views operands.now) 0) (drop 1 (views operands.now))) }
{
    let mut best = 0;
    for place in 1..operands.len() {
        if holds(comparison, &operands[place], &operands[best]) {
            best = place;
        }
    }
    let absent = Value::NilFunction;
    at(operands, best, &absent).copy_of(alloc)
}
