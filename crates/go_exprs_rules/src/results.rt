//! What operations stand for.
ghost use Rattle.std.specs.Prelude.{◌≡◌, ◌<◌, IfOk, Some, None, Ok, length};
ghost use Rattle.go_base.specs.Gives.{Gives};
ghost use Rattle.go_constants.specs.Folding.{folded};
ghost use Rattle.go_types.specs.Tables.{type_of, rights_of};
ghost use Rattle.go_typed.specs.Views.{sort_seen, KnownSort};
ghost use Rattle.go_exprs_rules.specs.Faults.{least, judged, refusal_of};
ghost use Rattle.go_exprs_rules.specs.Seen.{common_seen, KnownJoint};
ghost use Rattle.go_exprs_rules.specs.Sorts.{constant_of};
ghost use Rattle.go_exprs_rules.specs.Operators.{open_value, value_in, constant_in, result_in, out_of_range, folded_both};

use crate::family::OpenKind;
use crate::fault::{Place, TypeError};
use crate::operators::Joint;
use crate::sorts::{constant_of, represents};
use go_base::FaultCode;
use go_constants::{Const, ConstFault, ConstOp, fold};
use go_typed::{ConstantType, SharedConst, Sort, Untyped};
use go_types::Types;
use std::alloc::Global;

/// An untyped value that is no constant.
fn open_value(types: &Types, kind: OpenKind) -> Sort
    ensures tree { sort_seen types.now result ≡ open_value kind }
    ensures known { KnownSort (length types.now.shapes) result }
{
    match kind {
        OpenKind::Boolean => Sort::Open(Untyped::Boolean),
        OpenKind::Integer => Sort::Open(Untyped::Integer),
        OpenKind::Rune => Sort::Open(Untyped::Rune),
        OpenKind::Text => Sort::Unknown,
    }
}

/// A value that is no constant.
pub fn value_in(types: &Types, joint: Joint) -> Sort
    requires { KnownJoint (length types.now.shapes) joint }
    ensures tree { sort_seen types.now result ≡ value_in (common_seen types.now joint) }
    ensures known { KnownSort (length types.now.shapes) result }
{
    match joint {
        Joint::Type(of) => Sort::Value(of),
        Joint::Kind(kind) => open_value(types, kind),
    }
}

/// A constant, where its type has the value.
///
/// # Errors
///
/// The fault, or want of memory.
pub fn constant_in(
    alloc: Global,
    types: &Types,
    place: Place,
    joint: Joint,
    value: Const,
) -> Result<Sort, TypeError>
    requires { KnownJoint (length types.now.shapes) joint }
    ensures exact { let c = common_seen types.now joint in Gives (sort_seen types.now) refusal_of result (judged (least (out_of_range (rights_of types.now) place.first place.last c (Some (Ok value)))) (constant_in c value)) }
    ensures known { IfOk result (KnownSort (length types.now.shapes)) }
{
    match joint {
        Joint::Type(of) => if represents(types, of, &value) {
            Ok(Sort::Constant(ConstantType::of(of)?, SharedConst::of(alloc, value)?))
        } else {
            Err(TypeError::Fault(place.fault(FaultCode::Representable)))
        },
        Joint::Kind(_) => Ok(Sort::OpenConstant(SharedConst::of(alloc, value)?)),
    }
}

/// What an operation on two constants stands for.
pub fn computed(
    alloc: Global,
    types: &Types,
    place: Place,
    joint: Joint,
    op: ConstOp,
    left: &Const,
    right: &Const,
) -> Result<Sort, TypeError>
    requires { KnownJoint (length types.now.shapes) joint }
    ensures exact { let c = common_seen types.now joint in let v = Some (folded op left.now right.now) in
        Gives (sort_seen types.now) refusal_of result (judged (least (out_of_range (rights_of types.now) place.first place.last c v)) (result_in c v)) }
    ensures known { IfOk result (KnownSort (length types.now.shapes)) }
{
    match fold(alloc, op, left, right) {
        Ok(value) => constant_in(alloc, types, place, joint, value),
        Err(ConstFault::TooWide) => Err(TypeError::Fault(place.fault(FaultCode::Representable))),
        Err(ConstFault::Memory) => Err(TypeError::Memory),
        Err(_) => Ok(Sort::Unknown),
    }
}

/// What an operation on two operands stands for.
pub fn operation(
    alloc: Global,
    types: &Types,
    place: Place,
    joint: Joint,
    op: ConstOp,
    left: &Sort,
    right: &Sort,
) -> Result<Sort, TypeError>
    requires { KnownJoint (length types.now.shapes) joint }
    ensures exact { let c = common_seen types.now joint in let v = folded_both op (constant_of (sort_seen types.now left.now)) (constant_of (sort_seen types.now right.now)) in
        Gives (sort_seen types.now) refusal_of result (judged (least (out_of_range (rights_of types.now) place.first place.last c v)) (result_in c v)) }
    ensures known { IfOk result (KnownSort (length types.now.shapes)) }
{
    match (constant_of(types, left), constant_of(types, right)) {
        (Some(left), Some(right)) => computed(alloc, types, place, joint, op, left, right),
        _ => Ok(value_in(types, joint)),
    }
}
