//! Comparisons.
ghost use Rattle.std.specs.Prelude.{◌≡◌, ◌<◌, Ok, IfOk, IfSome, length};
ghost use Rattle.std.specs.Option.{option_map};
ghost use Rattle.go_base.specs.Gives.{Gives};
ghost use Rattle.go_types.specs.Tables.{type_of, rights_of};
ghost use Rattle.go_typed.specs.Trees.{sort_of};
ghost use Rattle.go_typed.specs.Views.{seen, sort_seen, Known, KnownSort};
ghost use Rattle.go_exprs_rules.specs.Faults.{least, judged, refusal_of};
ghost use Rattle.go_exprs_rules.specs.Seen.{AreBasics, common_seen, KnownJoint};
ghost use Rattle.go_exprs_rules.specs.Sorts.{own_type, is_nil};
ghost use Rattle.go_exprs_rules.specs.Operators.{nil_common, typed_compared, compared_in, type_in, is_equality, unordered, incomparable, unfit, compared_refuse, compared_failing, compared_sort};

use crate::basics::{Basics, default_type};
use crate::binary::comparing;
use crate::family::{Family, OpenKind};
use crate::fault::{Place, TypeError, TypeFault, earlier};
use crate::nodes::{sort_of, unrepresented};
use crate::operators::{Joint, common, joint_family};
use crate::results::operation;
use crate::sorts::{has_nil, is_constant, is_family, is_nil, own_type};
use go_base::FaultCode;
use go_grammar::kind::Comparison;
use go_typed::{Sort, TypedNode};
use go_types::{TypeId, Types};
use go_types_relations::{assignable, comparable};
use std::alloc::Global;

fn nil_common(types: &Types, of: Option<TypeId>) -> Option<Joint>
    requires { IfSome of (λ t. t < length types.now.shapes) }
    ensures known { IfSome result (KnownJoint (length types.now.shapes)) }
    ensures tree { option_map (common_seen types.now) result ≡ nil_common (rights_of types.now) (option_map (type_of types.now.shapes) of) }
{
    match of {
        Some(of) => if has_nil(types, of) {
            Some(Joint::Type(of))
        } else {
            None
        },
        None => None,
    }
}

fn typed_compared(types: &Types, left: &Sort, right: &Sort) -> Option<Joint>
    requires left { KnownSort (length types.now.shapes) left.now }
    requires right { KnownSort (length types.now.shapes) right.now }
    ensures known { IfSome result (KnownJoint (length types.now.shapes)) }
    ensures tree { let a = sort_seen types.now left.now in let b = sort_seen types.now right.now in option_map (common_seen types.now) result ≡ typed_compared (rights_of types.now) a b (own_type a) (own_type b) }
{
    match (own_type(types, left), own_type(types, right)) {
        (Some(of), Some(other)) => {
            if assignable(types, of, other) {
                return Some(Joint::Type(of));
            }
            if assignable(types, other, of) {
                return Some(Joint::Type(of));
            }
            None
        }
        _ => common(types, left, right),
    }
}

/// Where two values are compared: one is assignable to the other's type, or one is `nil`.
pub fn compared_in(types: &Types, left: &Sort, right: &Sort) -> Option<Joint>
    requires left { KnownSort (length types.now.shapes) left.now }
    requires right { KnownSort (length types.now.shapes) right.now }
    ensures known { IfSome result (KnownJoint (length types.now.shapes)) }
    ensures tree { option_map (common_seen types.now) result ≡ compared_in (rights_of types.now) (sort_seen types.now left.now) (sort_seen types.now right.now) }
{
    match (left, right) {
        (Sort::Nil, _) => nil_common(types, own_type(types, right)),
        (_, Sort::Nil) => nil_common(types, own_type(types, left)),
        _ => typed_compared(types, left, right),
    }
}

fn is_equality(operator: Comparison) -> bool
    ensures { result ≡ is_equality operator }
{
    matches!(operator, Comparison::Equal | Comparison::NotEqual)
}

/// The fault of values that are not ordered: integers and texts are.
pub fn unordered(types: &Types, place: Place, joint: Joint) -> Option<TypeFault>
    requires { KnownJoint (length types.now.shapes) joint }
    ensures { result ≡ least (unordered (rights_of types.now) place.first place.last (common_seen types.now joint)) }
{
    let family = joint_family(types, joint);
    if is_family(Family::Integers, family) || is_family(Family::Texts, family) {
        None
    } else {
        Some(place.fault(FaultCode::Operands))
    }
}

fn incomparable(types: &Types, place: Place, joint: Joint) -> Option<TypeFault>
    requires { KnownJoint (length types.now.shapes) joint }
    ensures { result ≡ least (incomparable (rights_of types.now) place.first place.last (common_seen types.now joint)) }
{
    match joint {
        Joint::Type(of) => if comparable(types, of) {
            None
        } else {
            Some(place.fault(FaultCode::NotComparable))
        },
        Joint::Kind(_) => None,
    }
}

/// The fault of a comparison that there isn't where the operands meet.
fn unfit(
    types: &Types,
    place: Place,
    operator: Comparison,
    with_nil: bool,
    joint: Joint,
) -> Option<TypeFault>
    requires { KnownJoint (length types.now.shapes) joint }
    ensures { result ≡ least (unfit (rights_of types.now) operator place.first place.last with_nil (common_seen types.now joint)) }
{
    if with_nil {
        return if is_equality(operator) {
            None
        } else {
            Some(place.fault(FaultCode::Operands))
        };
    }
    if is_equality(operator) {
        incomparable(types, place, joint)
    } else {
        unordered(types, place, joint)
    }
}

/// The first constant in the operands that their type doesn't represent.
#[tactic(auto, using(crate::proofs::Firsts::least_append))]
fn compared_refuse(
    types: &Types,
    basics: Basics,
    joint: Joint,
    left: &TypedNode,
    right: &TypedNode,
) -> Option<TypeFault>
    requires basics { AreBasics types.now basics }
    requires joint { KnownJoint (length types.now.shapes) joint }
    requires left { Known (length types.now.shapes) left.now }
    requires right { Known (length types.now.shapes) right.now }
    ensures { result ≡ least (compared_refuse (rights_of types.now) (common_seen types.now joint) (seen types.now left.now) (seen types.now right.now)) }
{
    match joint {
        Joint::Type(of) => earlier(
            unrepresented(types, of, left),
            unrepresented(types, of, right),
        ),
        Joint::Kind(kind) => {
            if is_constant(types, sort_of(types, left))
                && is_constant(types, sort_of(types, right))
            {
                return None;
            }
            let of = default_type(types, basics, kind);
            earlier(
                unrepresented(types, of, left),
                unrepresented(types, of, right),
            )
        }
    }
}

/// The untyped boolean that a comparison gives, constant where both operands are.
fn truth(
    alloc: Global,
    types: &Types,
    place: Place,
    operator: Comparison,
    left: &Sort,
    right: &Sort,
) -> Result<Sort, TypeError>
    ensures exact { Gives (sort_seen types.now) refusal_of result (Ok (compared_sort operator (sort_seen types.now left.now) (sort_seen types.now right.now))) }
    ensures known { IfOk result (KnownSort (length types.now.shapes)) }
{
    operation(
        alloc,
        types,
        place,
        Joint::Kind(OpenKind::Boolean),
        comparing(operator),
        left,
        right,
    )
}

/// What a comparison makes of its operands (Go specification, "Comparison operators"), or the fault of its rules: `Operands` or
/// `NotComparable` here, or `Representable` at an untyped constant that the type doesn't have in which they are compared.
#[tactic(auto, using(crate::proofs::Firsts::least_or_else, crate::proofs::Firsts::least_append))]
pub fn compare(
    alloc: Global,
    types: &Types,
    basics: Basics,
    place: Place,
    operator: Comparison,
    left: &TypedNode,
    right: &TypedNode,
) -> Result<Sort, TypeError>
    requires basics { AreBasics types.now basics }
    requires left { Known (length types.now.shapes) left.now }
    requires right { Known (length types.now.shapes) right.now }
    ensures exact { let x = seen types.now left.now in let y = seen types.now right.now in let rights = rights_of types.now in
        Gives (sort_seen types.now) refusal_of result (judged (least (compared_failing rights operator place.first place.last x y)) (compared_sort operator (sort_of x) (sort_of y))) }
    ensures known { IfOk result (KnownSort (length types.now.shapes)) }
{
    let a = sort_of(types, left);
    let b = sort_of(types, right);
    let Some(joint) = compared_in(types, a, b) else {
        return Err(TypeError::Fault(place.fault(FaultCode::Operands)));
    };
    let with_nil = is_nil(types, a) || is_nil(types, b);
    if let Some(fault) = unfit(types, place, operator, with_nil, joint) {
        return Err(TypeError::Fault(fault));
    }
    if let Some(fault) = compared_refuse(types, basics, joint, left, right) {
        return Err(TypeError::Fault(fault));
    }
    truth(alloc, types, place, operator, a, b)
}
