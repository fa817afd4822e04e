//! What a node stands for by its parts, by kinds.
ghost use Rattle.std.specs.Prelude.{◌≡◌, ◌<◌, [], IfOk, length, map};
ghost use Rattle.std.specs.Option.{option_map};
ghost use Rattle.go_base.specs.Gives.{Gives};
ghost use Rattle.go_types.specs.Tables.{type_of, rights_of};
ghost use Rattle.go_types_relations.specs.Extends.{Grows};
ghost use Rattle.go_typed.specs.Trees.{sort_of, Unknown};
ghost use Rattle.go_typed.specs.Views.{seen, sort_seen, Known, AllKnown, KnownSort};
ghost use Rattle.go_exprs_rules.specs.Faults.{least, judged, refusal_of};
ghost use Rattle.go_exprs_rules.specs.Seen.{AreBasics};
ghost use Rattle.go_exprs_rules.specs.Hints.{hint_seen, KnownHint};
ghost use Rattle.go_exprs_rules.specs.Operators.{unary_failing, unary_sort, operation_failing, operation_sort};
ghost use Rattle.go_exprs_rules.specs.Indexes.{index_failing, index_sort, slice_failing, slice_sort};
ghost use Rattle.go_exprs_rules.specs.Tables.{on_one, on_two, on_bracketed, failing, sort_by};
ghost use Rattle.go_exprs_types.specs.Naming.{names, text_in, KnownScope};
ghost use Rattle.go_exprs_engine.specs.Literals.{Reads};

use go_exprs_calls::{call, literal};
use go_exprs_rules::binary::binary;
use go_exprs_rules::compare::compare;
use go_exprs_rules::index::index;
use go_exprs_rules::nodes::sort_of;
use go_exprs_rules::shift::shift;
use go_exprs_rules::unary::unary;
use go_exprs_rules::{Basics, Hint, Place, TypeError, literal as literals};
use go_exprs_types::Scope;
use go_exprs_types::fields::selector;
use go_exprs_types::names::name_sort;
use go_exprs_types::sequence::sequence;
use go_exprs_types::signature::signature;
use go_exprs_types::slices::slice;
use go_exprs_types::structure::structure;
use go_grammar::kind::{Arithmetic, Kind, Operator, Sign};
use go_typed::{Sort, TypedNode};
use go_types::Types;
use std::alloc::Global;

/// What the one part stands for.
fn only_part(types: &Types, parts: &[Option<TypedNode>]) -> Result<Sort, TypeError>
    requires { AllKnown (length types.now.shapes) parts.now }
    ensures exact { Gives (sort_seen types.now) refusal_of result (judged (least []) (on_one Unknown sort_of (map (option_map (seen types.now)) parts.now))) }
    ensures known { IfOk result (KnownSort (length types.now.shapes)) }
{
    match parts {
        [Some(part)] => Ok(sort_of(types, part).shared()?),
        _ => Ok(Sort::Unknown),
    }
}

fn unary_node(
    alloc: Global,
    types: &Types,
    place: Place,
    sign: Sign,
    parts: &[Option<TypedNode>],
) -> Result<Sort, TypeError>
    requires { AllKnown (length types.now.shapes) parts.now }
    ensures exact { let rights = rights_of types.now in let ys = map (option_map (seen types.now)) parts.now in
        Gives (sort_seen types.now) refusal_of result (judged (least (on_one [] (λ x. unary_failing rights sign place.first place.last (sort_of x)) ys)) (on_one Unknown (λ x. unary_sort rights sign (sort_of x)) ys)) }
    ensures known { IfOk result (KnownSort (length types.now.shapes)) }
{
    match parts {
        [Some(operand)] => unary(alloc, types, place, sign, sort_of(types, operand)),
        _ => Ok(Sort::Unknown),
    }
}

/// What an operator makes of two operands (Go specification, "Operators").
fn operation(
    alloc: Global,
    types: &Types,
    basics: Basics,
    place: Place,
    operator: Operator,
    left: &TypedNode,
    right: &TypedNode,
) -> Result<Sort, TypeError>
    requires basics { AreBasics types.now basics }
    requires left { Known (length types.now.shapes) left.now }
    requires right { Known (length types.now.shapes) right.now }
    ensures exact { let rights = rights_of types.now in let x = seen types.now left.now in let y = seen types.now right.now in
        Gives (sort_seen types.now) refusal_of result (judged (least (operation_failing rights operator place.first place.last x y)) (operation_sort rights operator (sort_of x) (sort_of y))) }
    ensures known { IfOk result (KnownSort (length types.now.shapes)) }
{
    match operator {
        Operator::Compare(comparison) => {
            compare(alloc, types, basics, place, comparison, left, right)
        }
        Operator::Compute(Arithmetic::ShiftLeft) => {
            shift(alloc, types, basics, place, operator, left, right)
        }
        Operator::Compute(Arithmetic::ShiftRight) => {
            shift(alloc, types, basics, place, operator, left, right)
        }
        _ => binary(alloc, types, place, operator, left, right),
    }
}

fn binary_node(
    alloc: Global,
    types: &Types,
    basics: Basics,
    place: Place,
    operator: Operator,
    parts: &[Option<TypedNode>],
) -> Result<Sort, TypeError>
    requires basics { AreBasics types.now basics }
    requires parts { AllKnown (length types.now.shapes) parts.now }
    ensures exact { let rights = rights_of types.now in let ys = map (option_map (seen types.now)) parts.now in
        Gives (sort_seen types.now) refusal_of result (judged (least (on_two [] (operation_failing rights operator place.first place.last) ys)) (on_two Unknown (λ x y. operation_sort rights operator (sort_of x) (sort_of y)) ys)) }
    ensures known { IfOk result (KnownSort (length types.now.shapes)) }
{
    match parts {
        [Some(left), Some(right)] => operation(alloc, types, basics, place, operator, left, right),
        _ => Ok(Sort::Unknown),
    }
}

/// An index expression, which has two parts, or a slice expression, which has three.
fn bracketed_node(
    types: &Types,
    basics: Basics,
    place: Place,
    parts: &[Option<TypedNode>],
) -> Result<Sort, TypeError>
    requires basics { AreBasics types.now basics }
    requires parts { AllKnown (length types.now.shapes) parts.now }
    ensures exact { let r = rights_of types.now in let i = place.first in let j = place.last in let ys = map (option_map (seen types.now)) parts.now in
        let fs = on_bracketed [] (λ x n. index_failing r i j (sort_of x) n) (λ x low high. slice_failing r i j (sort_of x) low high) ys in
        Gives (sort_seen types.now) refusal_of result (judged (least fs) (on_bracketed Unknown (λ x n. index_sort r (sort_of x)) (λ x low high. slice_sort (sort_of x)) ys)) }
    ensures known { IfOk result (KnownSort (length types.now.shapes)) }
{
    match parts {
        [Some(operand), Some(at)] => Ok(index(types, basics, place, sort_of(types, operand), at)?),
        [Some(operand), low, high] => Ok(slice(
            types,
            basics,
            place,
            sort_of(types, operand),
            low.as_ref(),
            high.as_ref(),
        )?),
        _ => Ok(Sort::Unknown),
    }
}

/// What a node of the kind stands for by its parts, as they are laid out, or the first fault of its rules.
///
/// # Errors
///
/// The fault, or want of memory.
pub fn judge(
    alloc: Global,
    types: &mut Types,
    scope: &Scope<'_>,
    kind: Kind,
    hint: Hint,
    place: Place,
    parts: &[Option<TypedNode>],
) -> Result<Sort, TypeError>
    requires scope { KnownScope (length types.old.shapes) scope.now }
    requires basics { AreBasics types.old scope.now.basics }
    requires hint { KnownHint (length types.old.shapes) hint }
    requires parts { AllKnown (length types.old.shapes) parts.now }
    requires literal { Reads (text_in scope.now) kind place.first }
    ensures grows { Grows types.old types.new }
    ensures exact { let s = names types.old scope.now in let h = hint_seen types.old hint in let ys = map (option_map (seen types.old)) parts.now in
        Gives (sort_seen types.new) refusal_of result (judged (least (failing s kind h place.first place.last ys)) (sort_by s kind h place.first place.last ys)) }
    ensures known { IfOk result (KnownSort (length types.new.shapes)) }
{
    types.count();
    match kind {
        Kind::Name => Ok(name_sort(alloc, types, scope, hint, place.first)?),
        Kind::Integer => literals::integer(alloc, types, place, scope.text(place.first)),
        Kind::Rune => Ok(literals::rune(alloc, types, scope.text(place.first))?),
        Kind::Text => Ok(literals::text(alloc, types, scope.text(place.first))?),
        Kind::Parenthesized => only_part(types, parts),
        Kind::ParenthesizedType => only_part(types, parts),
        Kind::FunctionType => only_part(types, parts),
        Kind::Keyed => only_part(types, parts),
        Kind::Unary(sign) => unary_node(alloc, types, place, sign, parts),
        Kind::Binary(operator) => binary_node(alloc, types, scope.basics, place, operator, parts),
        Kind::Selector => {
            let name = scope.text(place.last.saturating_sub(1));
            Ok(selector(types, place, name, parts)?)
        }
        Kind::Bracketed => bracketed_node(types, scope.basics, place, parts),
        Kind::Call => call(alloc, types, scope.basics, place, parts),
        Kind::Composite => literal(alloc, types, place, hint, parts),
        Kind::LiteralValue => literal(alloc, types, place, hint, parts),
        Kind::SequenceType => sequence(types, scope.basics, place, scope.limits, parts),
        Kind::Signature => Ok(signature(alloc, types, parts)?),
        Kind::StructType => Ok(structure(alloc, types, scope, parts)?),
        _ => Ok(Sort::Nothing),
    }
}
