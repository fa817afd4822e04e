//! Binary operators that neither compare nor shift.
ghost use Rattle.std.specs.Prelude.{◌≡◌, ◌<◌, IfOk, length};
ghost use Rattle.std.specs.Option.{option_map};
ghost use Rattle.go_base.specs.Gives.{Gives};
ghost use Rattle.go_types.specs.Tables.{type_of, rights_of};
ghost use Rattle.go_typed.specs.Trees.{sort_of};
ghost use Rattle.go_typed.specs.Views.{seen, sort_seen, Known, KnownSort};
ghost use Rattle.go_exprs_rules.specs.Faults.{least, judged, refusal_of};
ghost use Rattle.go_exprs_rules.specs.Seen.{common_seen, KnownJoint};
ghost use Rattle.go_exprs_rules.specs.Sorts.{is_zero};
ghost use Rattle.go_exprs_rules.specs.Operators.{admits, divides, zero_divisor, refused, both_refuse, constant_op, comparing, binary_failing, binary_sort};

use crate::family::Family;
use crate::fault::{Place, TypeError, TypeFault, earlier, or_earlier};
use crate::nodes::{fault_at, sort_of, unrepresented};
use crate::operators::{Joint, common, joint_family};
use crate::results::operation;
use crate::sorts::{constant_of, is_family};
use go_base::FaultCode;
use go_constants::{Const, ConstOp};
use go_grammar::kind::{Arithmetic, Comparison, Operator};
use go_typed::operators::op_of;
use go_typed::{Sort, TypedNode};
use go_types::Types;
use std::alloc::Global;

/// The operation on constants of a comparison.
pub fn comparing(operator: Comparison) -> ConstOp
    ensures { result ≡ comparing operator }
{
    match operator {
        Comparison::Equal => ConstOp::Eq,
        Comparison::NotEqual => ConstOp::Ne,
        Comparison::Less => ConstOp::Lt,
        Comparison::LessEqual => ConstOp::Le,
        Comparison::Greater => ConstOp::Gt,
        Comparison::GreaterEqual => ConstOp::Ge,
    }
}

/// The operation on constants.
pub fn constant_op(operator: Operator) -> ConstOp
    ensures { result ≡ constant_op operator }
{
    match operator {
        Operator::Either => ConstOp::Either,
        Operator::Both => ConstOp::Both,
        Operator::Compare(operator) => comparing(operator),
        Operator::Compute(operator) => ConstOp::Arith(op_of(operator)),
    }
}

/// Whether the operator is one on the family.
fn admits(operator: Operator, family: Option<Family>) -> bool
    ensures { result ≡ admits operator family }
{
    match operator {
        Operator::Either => is_family(Family::Booleans, family),
        Operator::Both => is_family(Family::Booleans, family),
        Operator::Compute(Arithmetic::Add) => {
            is_family(Family::Integers, family) || is_family(Family::Texts, family)
        }
        Operator::Compute(_) | Operator::Compare(_) => is_family(Family::Integers, family),
    }
}

fn divides(operator: Operator) -> bool
    ensures { result ≡ divides operator }
{
    matches!(
        operator,
        Operator::Compute(Arithmetic::Divide) | Operator::Compute(Arithmetic::Remainder)
    )
}

fn is_zero(constant: Option<&Const>) -> bool
    ensures { result ≡ is_zero (option_map (λ c. c.now) constant.entry) }
{
    match constant {
        Some(Const::Int { value, .. }) => *value == 0,
        _ => false,
    }
}

/// The fault of a constant divisor 0.
fn zero_divisor(types: &Types, operator: Operator, divisor: &TypedNode) -> Option<TypeFault>
    requires { Known (length types.now.shapes) divisor.now }
    ensures { result ≡ least (zero_divisor operator (seen types.now divisor.now)) }
{
    if !divides(operator) {
        return None;
    }
    if is_zero(constant_of(types, sort_of(types, divisor))) {
        Some(fault_at(types, divisor, FaultCode::ZeroDivisor))
    } else {
        None
    }
}

/// The first constant in an operand that the type doesn't represent in which the operands meet.
fn refused(types: &Types, joint: Joint, operand: &TypedNode) -> Option<TypeFault>
    requires joint { KnownJoint (length types.now.shapes) joint }
    requires operand { Known (length types.now.shapes) operand.now }
    ensures { result ≡ least (refused (rights_of types.now) (common_seen types.now joint) (seen types.now operand.now)) }
{
    match joint {
        Joint::Type(of) => unrepresented(types, of, operand),
        Joint::Kind(_) => None,
    }
}

#[tactic(auto, using(crate::proofs::Firsts::least_append))]
fn both_refuse(
    types: &Types,
    joint: Joint,
    left: &TypedNode,
    right: &TypedNode,
) -> Option<TypeFault>
    requires joint { KnownJoint (length types.now.shapes) joint }
    requires left { Known (length types.now.shapes) left.now }
    requires right { Known (length types.now.shapes) right.now }
    ensures { result ≡ least (both_refuse (rights_of types.now) (common_seen types.now joint) (seen types.now left.now) (seen types.now right.now)) }
{
    earlier(refused(types, joint, left), refused(types, joint, right))
}

/// What a binary operator makes of its operands (Go specification, "Arithmetic operators", "Logical operators"), or the fault
/// of its rules.
#[tactic(auto, using(crate::proofs::Firsts::least_or_else, crate::proofs::Firsts::least_append))]
pub fn binary(
    alloc: Global,
    types: &Types,
    place: Place,
    operator: Operator,
    left: &TypedNode,
    right: &TypedNode,
) -> Result<Sort, TypeError>
    requires left { Known (length types.now.shapes) left.now }
    requires right { Known (length types.now.shapes) right.now }
    ensures exact { let x = seen types.now left.now in let y = seen types.now right.now in let rights = rights_of types.now in
        Gives (sort_seen types.now) refusal_of result (judged (least (binary_failing rights operator place.first place.last x y)) (binary_sort rights operator (sort_of x) (sort_of y))) }
    ensures known { IfOk result (KnownSort (length types.now.shapes)) }
{
    let a = sort_of(types, left);
    let b = sort_of(types, right);
    let Some(joint) = common(types, a, b) else {
        return Err(TypeError::Fault(place.fault(FaultCode::Operands)));
    };
    let refused = both_refuse(types, joint, left, right);
    if !admits(operator, joint_family(types, joint)) {
        let first = or_earlier(refused, place.fault(FaultCode::Operands));
        return Err(TypeError::Fault(first));
    }
    if let Some(fault) = earlier(refused, zero_divisor(types, operator, right)) {
        return Err(TypeError::Fault(fault));
    }
    operation(alloc, types, place, joint, constant_op(operator), a, b)
}
