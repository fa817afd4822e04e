//! Shifts.
ghost use Rattle.std.specs.Prelude.{◌≡◌, ◌<◌, IfOk, length};
ghost use Rattle.std.specs.Option.{option_map};
ghost use Rattle.go_base.specs.Gives.{Gives};
ghost use Rattle.go_types.specs.Tables.{type_of, rights_of};
ghost use Rattle.go_typed.specs.Trees.{sort_of};
ghost use Rattle.go_typed.specs.Views.{seen, sort_seen, Known, KnownSort};
ghost use Rattle.go_exprs_rules.specs.Faults.{least, judged, refusal_of};
ghost use Rattle.go_exprs_rules.specs.Seen.{AreBasics};
ghost use Rattle.go_exprs_rules.specs.Sorts.{is_negative, is_whole};
ghost use Rattle.go_exprs_rules.specs.Operators.{is_count, shift_failing, shift_sort};

use crate::basics::Basics;
use crate::binary::constant_op;
use crate::family::Family;
use crate::fault::{Place, TypeError};
use crate::nodes::{sort_of, unrepresented};
use crate::operators::joint_family;
use crate::results::operation;
use crate::sorts::{family, is_family};
use crate::unary::own;
use go_base::FaultCode;
use go_constants::Const;
use go_grammar::kind::Operator;
use go_typed::{Sort, TypedNode};
use go_types::Types;
use std::alloc::Global;

/// Whether it is an integer below 0.
pub fn is_negative(constant: Option<&Const>) -> bool
    ensures { result ≡ is_negative (option_map (λ c. c.now) constant.entry) }
{
    match constant {
        Some(Const::Int { value, .. }) => *value < 0,
        _ => false,
    }
}

/// Whether it is an integer, or an untyped number.
pub fn is_whole(types: &Types, sort: &Sort) -> bool
    requires { KnownSort (length types.now.shapes) sort.now }
    ensures { result ≡ is_whole (rights_of types.now) (sort_seen types.now sort.now) }
{
    is_family(Family::Integers, family(types, sort))
}

/// Whether it may be the count of a shift: an integer, or an untyped constant; a constant of an integer type isn't negative.
pub fn is_count(types: &Types, sort: &Sort) -> bool
    requires { KnownSort (length types.now.shapes) sort.now }
    ensures { result ≡ is_count (rights_of types.now) (sort_seen types.now sort.now) }
{
    match sort {
        Sort::Open(_) => false,
        Sort::Constant(_, constant) => is_whole(types, sort) && !is_negative(Some(constant.get())),
        _ => is_whole(types, sort),
    }
}

/// What a shift makes of its operands (Go specification, "Arithmetic operators"), or the fault of its rules: `Operands` here,
/// `Representable` at an untyped count that `uint` doesn't have, or here where the value isn't one of the left operand's type.
#[tactic(auto, using(crate::proofs::Firsts::least_or_else, crate::proofs::Firsts::least_append))]
pub fn shift(
    alloc: Global,
    types: &Types,
    basics: Basics,
    place: Place,
    operator: Operator,
    left: &TypedNode,
    count: &TypedNode,
) -> Result<Sort, TypeError>
    requires basics { AreBasics types.now basics }
    requires left { Known (length types.now.shapes) left.now }
    requires count { Known (length types.now.shapes) count.now }
    ensures exact { let x = seen types.now left.now in let n = seen types.now count.now in let rights = rights_of types.now in
        Gives (sort_seen types.now) refusal_of result (judged (least (shift_failing rights operator place.first place.last x n)) (shift_sort operator (sort_of x) (sort_of n))) }
    ensures known { IfOk result (KnownSort (length types.now.shapes)) }
{
    let a = sort_of(types, left);
    let n = sort_of(types, count);
    let Some(joint) = own(types, a) else {
        return Err(TypeError::Fault(place.fault(FaultCode::Operands)));
    };
    if !is_family(Family::Integers, joint_family(types, joint)) {
        return Err(TypeError::Fault(place.fault(FaultCode::Operands)));
    }
    if !is_count(types, n) {
        return Err(TypeError::Fault(place.fault(FaultCode::Operands)));
    }
    if let Some(fault) = unrepresented(types, basics.uint, count) {
        return Err(TypeError::Fault(fault));
    }
    operation(alloc, types, place, joint, constant_op(operator), a, n)
}
