//! What the parts of a node take.
ghost use Rattle.std.specs.Prelude.{◌≡◌, ◌∷◌, [], IfOk, length, map};
ghost use Rattle.std.specs.Option.{option_map};
ghost use Rattle.std.specs.List.{All};
ghost use Rattle.go_types.specs.Tables.{type_of, rights_of};
ghost use Rattle.go_typed.specs.Trees.{sort_of};
ghost use Rattle.go_typed.specs.Views.{seen, sort_seen, AllKnown, KnownSort};
ghost use Rattle.go_exprs_rules.specs.Seen.{AreBasics};
ghost use Rattle.go_exprs_rules.specs.Takes.{take_seen, KnownTake};
ghost use Rattle.go_exprs_rules.specs.Hints.{hint_seen, KnownHint};
ghost use Rattle.go_exprs_rules.specs.Operators.{unary_take, operation_takes};
ghost use Rattle.go_exprs_rules.specs.Settling.{default, as_type};
ghost use Rattle.go_exprs_rules.specs.Sorts.{int};
ghost use Rattle.go_exprs_rules.specs.Tables.{on_one, on_two, takes};
ghost use Rattle.go_exprs_types.specs.Naming.{names};

use go_base::Memory;
use go_exprs_calls::{call_takes, literal_takes};
use go_exprs_rules::nodes::sort_of;
use go_exprs_rules::take::{binary_take, compared_take, shifted_take, unary_take};
use go_exprs_rules::{Basics, Hint, Take};
use go_exprs_types::Scope;
use go_grammar::kind::{Arithmetic, Kind, Operator};
use go_typed::{Sort, TypedNode};
use go_types::Types;
use std::alloc::Global;

/// What the two operands of an operator take.
#[derive(Clone, Copy)]
struct BothTake {
    left: Take,
    right: Take,
}

/// What two operands take (Go specification, "Operators").
fn operation_takes(
    types: &Types,
    basics: Basics,
    operator: Operator,
    left: &Sort,
    right: &Sort,
) -> BothTake
    requires basics { AreBasics types.now basics }
    requires left { KnownSort (length types.now.shapes) left.now }
    requires right { KnownSort (length types.now.shapes) right.now }
    ensures tree { take_seen types.now result.left ∷ take_seen types.now result.right ∷ [] ≡ operation_takes (rights_of types.now) operator (sort_seen types.now left.now) (sort_seen types.now right.now) }
    ensures left { KnownTake (length types.now.shapes) result.left }
    ensures right { KnownTake (length types.now.shapes) result.right }
{
    match operator {
        Operator::Compare(_) => {
            let both = compared_take(types, basics, left, right);
            BothTake {
                left: both,
                right: both,
            }
        }
        Operator::Compute(Arithmetic::ShiftLeft) => BothTake {
            left: shifted_take(types, left, right),
            right: Take::As(basics.uint),
        },
        Operator::Compute(Arithmetic::ShiftRight) => BothTake {
            left: shifted_take(types, left, right),
            right: Take::As(basics.uint),
        },
        _ => {
            let both = binary_take(types, left, right);
            BothTake {
                left: both,
                right: both,
            }
        }
    }
}

fn unary_takes(
    alloc: Global,
    types: &Types,
    parts: &[Option<TypedNode>],
) -> Result<Vec<Take>, Memory>
    requires parts { AllKnown (length types.now.shapes) parts.now }
    ensures tree { IfOk result (λ ks. map (take_seen types.now) ks.items ≡ on_one [] (λ x. unary_take (sort_of x) ∷ []) (map (option_map (seen types.now)) parts.now)) }
    ensures known { IfOk result (λ ks. All (KnownTake (length types.now.shapes)) ks.items) }
{
    match parts {
        [Some(operand)] => Ok(vec![in alloc; unary_take(types, sort_of(types, operand))]?),
        _ => Ok(Vec::new(alloc)),
    }
}

fn binary_takes(
    alloc: Global,
    types: &Types,
    basics: Basics,
    operator: Operator,
    parts: &[Option<TypedNode>],
) -> Result<Vec<Take>, Memory>
    requires basics { AreBasics types.now basics }
    requires parts { AllKnown (length types.now.shapes) parts.now }
    ensures tree { IfOk result (λ ks. map (take_seen types.now) ks.items ≡ on_two [] (λ x y. operation_takes (rights_of types.now) operator (sort_of x) (sort_of y)) (map (option_map (seen types.now)) parts.now)) }
    ensures known { IfOk result (λ ks. All (KnownTake (length types.now.shapes)) ks.items) }
{
    match parts {
        [Some(left), Some(right)] => {
            let both = operation_takes(
                types,
                basics,
                operator,
                sort_of(types, left),
                sort_of(types, right),
            );
            Ok(vec![in alloc; both.left, both.right]?)
        }
        _ => Ok(Vec::new(alloc)),
    }
}

/// What the operand and the index or bounds take.
fn bracketed_takes(alloc: Global, types: &Types, basics: Basics) -> Result<Vec<Take>, Memory>
    requires basics { AreBasics types.now basics }
    ensures tree { IfOk result (λ ks. map (take_seen types.now) ks.items ≡ default ∷ as_type int ∷ as_type int ∷ []) }
    ensures known { IfOk result (λ ks. All (KnownTake (length types.now.shapes)) ks.items) }
{
    let _types = types;
    Ok(vec![in alloc; Take::Default, Take::As(basics.int), Take::As(basics.int)]?)
}

/// What the parts of a node of the kind take, in order; further ones take nothing.
///
/// # Errors
///
/// Want of memory.
pub fn takes(
    alloc: Global,
    types: &Types,
    scope: &Scope<'_>,
    kind: Kind,
    hint: Hint,
    parts: &[Option<TypedNode>],
) -> Result<Vec<Take>, Memory>
    requires basics { AreBasics types.now scope.now.basics }
    requires hint { KnownHint (length types.now.shapes) hint }
    requires parts { AllKnown (length types.now.shapes) parts.now }
    ensures tree { IfOk result (λ ks. map (take_seen types.now) ks.items ≡ takes (names types.now scope.now) kind (hint_seen types.now hint) (map (option_map (seen types.now)) parts.now)) }
    ensures known { IfOk result (λ ks. All (KnownTake (length types.now.shapes)) ks.items) }
{
    match kind {
        Kind::Unary(_) => unary_takes(alloc, types, parts),
        Kind::Binary(operator) => binary_takes(alloc, types, scope.basics, operator, parts),
        Kind::Bracketed => bracketed_takes(alloc, types, scope.basics),
        Kind::Call => call_takes(alloc, types, scope.basics, parts),
        Kind::Composite => literal_takes(alloc, types, hint, parts),
        Kind::LiteralValue => literal_takes(alloc, types, hint, parts),
        _ => Ok(Vec::new(alloc)),
    }
}
