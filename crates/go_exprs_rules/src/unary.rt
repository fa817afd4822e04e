//! Unary operators.
ghost use Rattle.std.specs.Prelude.{◌≡◌, ◌<◌, IfOk, IfSome, length, Some};
ghost use Rattle.std.specs.Option.{option_map};
ghost use Rattle.go_base.specs.Gives.{Gives};
ghost use Rattle.go_types.specs.Tables.{type_of, rights_of};
ghost use Rattle.go_typed.specs.Views.{sort_seen, KnownSort};
ghost use Rattle.go_exprs_rules.specs.Faults.{least, judged, refusal_of};
ghost use Rattle.go_exprs_rules.specs.Seen.{common_seen, KnownJoint};
ghost use Rattle.go_exprs_rules.specs.Sorts.{constant_of, own_type, form_of_value, underlying_in};
ghost use Rattle.go_exprs_rules.specs.Operators.{own, all_bits, complement_mask, sign_family, unary_failing, unary_sort, signed_const, result_in, out_of_range};

use crate::family::Family;
use crate::fault::{Place, TypeError};
use crate::operators::{Joint, joint_family};
use crate::results::{computed, constant_in, value_in};
use crate::sorts::{constant_of, is_family, open_kind, own_type};
use go_base::FaultCode;
use go_constants::{Const, ConstOp};
use go_grammar::kind::Sign;
use go_ints::{Kind, Op};
use go_typed::Sort;
use go_types::{Shape, TypeId, Types};
use go_types_relations::underlying;
use std::alloc::Global;

/// In what a value stands by itself.
pub fn own(types: &Types, sort: &Sort) -> Option<Joint>
    requires { KnownSort (length types.now.shapes) sort.now }
    ensures known { IfSome result (KnownJoint (length types.now.shapes)) }
    ensures tree { option_map (common_seen types.now) result ≡ own (sort_seen types.now sort.now) }
{
    match (own_type(types, sort), open_kind(types, sort)) {
        (Some(of), _) => Some(Joint::Type(of)),
        (None, Some(kind)) => Some(Joint::Kind(kind)),
        (None, None) => None,
    }
}

/// All the bits of the kind, as a value: for an unsigned kind its greatest one, else -1.
fn all_bits(kind: Kind) -> Const
    ensures { result ≡ all_bits kind }
{
    let layout = kind.layout();
    if layout.signed {
        Const::Int {
            value: -1,
            rune: false,
        }
    } else {
        Const::Int {
            value: layout.greatest,
            rune: false,
        }
    }
}

/// What `^x` is the exclusive or of `x` with.
fn complement_mask(types: &Types, of: Option<TypeId>) -> Const
    requires { IfSome of (λ t. t < length types.now.shapes) }
    ensures { result ≡ complement_mask (underlying_in (rights_of types.now) (option_map (type_of types.now.shapes) of)) }
{
    match of {
        Some(of) => match underlying(types, of) {
            Some(Shape::Int(kind)) => all_bits(*kind),
            _ => Const::Int {
                value: -1,
                rune: false,
            },
        },
        None => Const::Int {
            value: -1,
            rune: false,
        },
    }
}

fn sign_family(sign: Sign) -> Family
    ensures { result ≡ sign_family sign }
{
    match sign {
        Sign::Not => Family::Booleans,
        Sign::Plus | Sign::Minus | Sign::Complement => Family::Integers,
    }
}

/// What the operator makes of a constant.
fn signed(
    alloc: Global,
    types: &Types,
    place: Place,
    joint: Joint,
    sign: Sign,
    of: Option<TypeId>,
    constant: &Const,
) -> Result<Sort, TypeError>
    requires joint { KnownJoint (length types.now.shapes) joint }
    requires of { IfSome of (λ t. t < length types.now.shapes) }
    ensures exact { let c = common_seen types.now joint in let mask = complement_mask (underlying_in (rights_of types.now) (option_map (type_of types.now.shapes) of)) in let v = Some (signed_const sign mask constant.now) in
        Gives (sort_seen types.now) refusal_of result (judged (least (out_of_range (rights_of types.now) place.first place.last c v)) (result_in c v)) }
    ensures known { IfOk result (KnownSort (length types.now.shapes)) }
{
    match sign {
        Sign::Plus => {
            let value = constant.shared()?;
            constant_in(alloc, types, place, joint, value)
        }
        Sign::Minus => {
            let zero = Const::Int {
                value: 0,
                rune: false,
            };
            computed(
                alloc,
                types,
                place,
                joint,
                ConstOp::Arith(Op::Sub),
                &zero,
                constant,
            )
        }
        Sign::Not => {
            let no = Const::Bool(false);
            computed(alloc, types, place, joint, ConstOp::Eq, constant, &no)
        }
        Sign::Complement => {
            let mask = complement_mask(types, of);
            computed(
                alloc,
                types,
                place,
                joint,
                ConstOp::Arith(Op::Xor),
                &mask,
                constant,
            )
        }
    }
}

/// What a unary operator makes of its operand (Go specification, "Arithmetic operators", "Logical operators"), or the fault of
/// its rules: `Operands` here, or `Representable` where the value isn't one of the type.
pub fn unary(
    alloc: Global,
    types: &Types,
    place: Place,
    sign: Sign,
    operand: &Sort,
) -> Result<Sort, TypeError>
    requires { KnownSort (length types.now.shapes) operand.now }
    ensures exact { let a = sort_seen types.now operand.now in let rights = rights_of types.now in
        Gives (sort_seen types.now) refusal_of result (judged (least (unary_failing rights sign place.first place.last a)) (unary_sort rights sign a)) }
    ensures known { IfOk result (KnownSort (length types.now.shapes)) }
{
    let Some(joint) = own(types, operand) else {
        return Err(TypeError::Fault(place.fault(FaultCode::Operands)));
    };
    if !is_family(sign_family(sign), joint_family(types, joint)) {
        return Err(TypeError::Fault(place.fault(FaultCode::Operands)));
    }
    match constant_of(types, operand) {
        Some(constant) => {
            let of = own_type(types, operand);
            signed(alloc, types, place, joint, sign, of, constant)
        }
        None => Ok(value_in(types, joint)),
    }
}
