//! Operations on two values, which need neither a list of operands nor the world.

ghost use Rattle.std.specs.Prelude.{◌≡◌, ℕ, List, IfSome};
ghost use Rattle.go_types.specs.Trees.{TypeTree};
ghost use Rattle.go_types.specs.Relations.{Rights};
ghost use Rattle.go_typed.specs.Trees.{Typeds};
ghost use Rattle.go_typed.specs.declared.node.TypedNode as typed;
ghost use Rattle.go_typed.specs.Packages.{PackageView};
ghost use Rattle.go_meaning.specs.Values as meant;
ghost use Rattle.go_meaning.specs.Values.{nth};
ghost use Rattle.go_meaning.specs.Computations.{World};
ghost use Rattle.go_meaning.specs.Operations.{perform};
ghost use Rattle.go_eval_plans.specs.Views.{operation_view};
ghost use Rattle.go_values.specs.Deeds as deeds;
ghost use Rattle.go_values.specs.Views.{view, views};
ghost use Rattle.go_eval_machine.specs.Tasks.{deed_view};

use crate::task::Deed;
use go_eval_plans::places::operand;
use go_eval_plans::plan::Operation;
use go_values::{Panic, Value, compare, compute};

/// What an operator on integers or a comparison gives of two values, or its panic; nothing where the operation is another one.
pub fn computed(operation: Operation, left: &Value, right: &Value) -> Option<Result<Value, Panic>>
    ensures { (rights : Rights) (f : ℕ → TypeTree) (ps : Typeds TypeTree) (us : List meant.Value) → nth us 0 ≡ view left.now → nth us 1 ≡ view right.now → IfSome result (λ r. (w : World) → perform (operation_view rights f ps operation) us w ≡ deeds.deed w r) }
{
    match operation {
        Operation::Compute(kind, op) => Some(compute(kind, op, left, right)),
        Operation::Compare(comparison) => Some(Ok(Value::Truth(compare(comparison, left, right)))),
        _ => None,
    }
}

/// What a deed gives of these operands, where it is such an operation; nothing where it is another one.
pub fn computed_deed(deed: Deed, operands: &[Value]) -> Option<Result<Value, Panic>>
    ensures { (p : PackageView) (x : typed.TypedNode) → IfSome result (λ r. (w : World) → perform (deed_view p x deed) (views operands.now) w ≡ deeds.deed w r) }
{
    let nil = Value::NilFunction;
    match deed {
        Deed::Planned(operation) => {
            let left = operand(operands, 0, &nil);
            let right = operand(operands, 1, &nil);
            computed(operation, left, right)
        }
        _ => None,
    }
}
