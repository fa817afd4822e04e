//! Assignments with an operator (Go specification: Assignment statements).
ghost use Rattle.std.specs.Prelude.{◌≡◌, ◌++◌, ◌∷◌, [], IfOk, length, map};
ghost use Rattle.go_types.specs.Tables.{rights_of};
ghost use Rattle.go_typed.specs.Trees.{sort_of};
ghost use Rattle.go_typed.specs.Views.{seen, sort_seen, Known, KnownSort};
ghost use Rattle.go_grammar.specs.declared.kind.Operator.TheVariants as operators;
ghost use Rattle.go_base.specs.Gives.{Gives};
ghost use Rattle.std.specs.Prelude.{Option};
ghost use Rattle.go_exprs_rules.specs.declared.fault.TypeFault.{TypeFault};
ghost use Rattle.go_exprs_rules.specs.Faults.{least, judged, refusal_of};
ghost use Rattle.go_exprs_rules.specs.Sorts.{Stands};
ghost use Rattle.go_exprs_rules.specs.Operators.{operation_failing, operation_sort, operation_takes};
ghost use Rattle.go_exprs_rules.specs.Seen.{AreBasics};
ghost use Rattle.go_exprs_rules.specs.Takes.{take_seen, KnownTake};
ghost use Rattle.go_stmts_defs.specs.Rules.{not_a_variable};

use crate::targets::not_a_variable;
use go_base::Memory;
use go_exprs_rules::binary::binary;
use go_exprs_rules::fault::earlier;
use go_exprs_rules::shift::shift;
use go_exprs_rules::take::{binary_take, shifted_take};
use go_exprs_rules::{Basics, Place, Take, TypeError, TypeFault};
use go_grammar::kind::{Arithmetic, Operator};
use go_typed::{Sort, TypedNode};
use go_types::Types;
use std::alloc::Global;

/// What an operator makes of two operands.
fn operation(
    alloc: Global,
    types: &Types,
    basics: Basics,
    place: Place,
    operator: Arithmetic,
    left: &TypedNode,
    right: &TypedNode,
) -> Result<Sort, TypeError>
    requires basics { AreBasics types.now basics }
    requires left { Known (length types.now.shapes) left.now }
    requires right { Known (length types.now.shapes) right.now }
    ensures { let rights = rights_of types.now in let o = operators.Compute operator in let x = seen types.now left.now in let y = seen types.now right.now in
        Gives (sort_seen types.now) refusal_of result (judged (least (operation_failing rights o place.first place.last x y)) (operation_sort rights o (sort_of x) (sort_of y))) }
{
    let whole = Operator::Compute(operator);
    match operator {
        Arithmetic::ShiftLeft => shift(alloc, types, basics, place, whole, left, right),
        Arithmetic::ShiftRight => shift(alloc, types, basics, place, whole, left, right),
        _ => binary(alloc, types, place, whole, left, right),
    }
}

/// The fault of what was made, if there is one.
pub fn fault_of(types: &Types, made: Result<Sort, TypeError>) -> Result<Option<TypeFault>, Memory>
    ensures { (o : Option TypeFault) (x : Stands) → Gives (sort_seen types.now) refusal_of made (judged o x) → IfOk result (λ f. f ≡ o) }
{
    let _types = types;
    match made {
        Ok(_) => Ok(None),
        Err(TypeError::Fault(fault)) => Ok(Some(fault)),
        Err(TypeError::Memory) => Err(Memory),
    }
}

/// The fault of an assignment with an operator.
#[tactic(auto, using(go_exprs_rules::proofs::Firsts::least_append))]
pub fn operate_fault(
    alloc: Global,
    types: &Types,
    basics: Basics,
    place: Place,
    operator: Arithmetic,
    left: &TypedNode,
    right: &TypedNode,
) -> Result<Option<TypeFault>, Memory>
    requires basics { AreBasics types.now basics }
    requires left { Known (length types.now.shapes) left.now }
    requires right { Known (length types.now.shapes) right.now }
    ensures { let rights = rights_of types.now in let x = seen types.now left.now in let y = seen types.now right.now in
        IfOk result (λ f. f ≡ least (not_a_variable rights x ++ operation_failing rights (operators.Compute operator) place.first place.last x y)) }
{
    let made = operation(alloc, types, basics, place, operator, left, right);
    let own = fault_of(types, made)?;
    Ok(earlier(not_a_variable(types, left), own))
}

/// What two operands take.
#[derive(Drop)]
pub struct BothTake {
    pub left: Take,
    pub right: Take,
}

/// What the operands of an operator take (Go specification: Arithmetic operators).
pub fn operands_take(
    types: &Types,
    basics: Basics,
    operator: Arithmetic,
    left: &Sort,
    right: &Sort,
) -> BothTake
    requires basics { AreBasics types.now basics }
    requires left { KnownSort (length types.now.shapes) left.now }
    requires right { KnownSort (length types.now.shapes) right.now }
    ensures tree { take_seen types.now result.left ∷ take_seen types.now result.right ∷ [] ≡ operation_takes (rights_of types.now) (operators.Compute operator) (sort_seen types.now left.now) (sort_seen types.now right.now) }
    ensures left { KnownTake (length types.now.shapes) result.left }
    ensures right { KnownTake (length types.now.shapes) result.right }
{
    match operator {
        Arithmetic::ShiftLeft => BothTake {
            left: shifted_take(types, left, right),
            right: Take::As(basics.uint),
        },
        Arithmetic::ShiftRight => BothTake {
            left: shifted_take(types, left, right),
            right: Take::As(basics.uint),
        },
        _ => {
            let both = binary_take(types, left, right);
            BothTake {
                left: both,
                right: both,
            }
        }
    }
}
