//! Conversions.
ghost use Rattle.std.specs.Prelude.{◌≡◌, ◌<◌, IfSome, length, nat_eq};
ghost use Rattle.std.specs.Option.{option_map};
ghost use Rattle.go_ints.specs.declared.kinds.Kind.TheVariants as kinds;
ghost use Rattle.go_types.specs.Keys.{kind_number};
ghost use Rattle.go_types.specs.Tables.{type_of, rights_of};
ghost use Rattle.go_types_relations.specs.Tests.{underlying_of, both_identical};
ghost use Rattle.go_typed.specs.Trees.{sort_of};
ghost use Rattle.go_typed.specs.Views.{seen, sort_seen, Known, KnownSort};
ghost use Rattle.go_exprs_rules.specs.Faults.{least};
ghost use Rattle.go_exprs_rules.specs.Seen.{AreBasics};
ghost use Rattle.go_exprs_rules.specs.Sorts.{constant_of, value_type, is_bytes};
ghost use Rattle.go_exprs_rules.specs.Calls.{keeps_value, becomes_text, is_text_type, converts_number, converts_bytes, converts, operands_unless, open_conversion, value_conversion, kept_conversion, conversion_failing};

use crate::assign::undefaulted;
use crate::basics::{Basics, default_type};
use crate::family::{Family, OpenKind};
use crate::fault::{Place, TypeFault};
use crate::nodes::{fault_at, sort_of, unrepresented};
use crate::sorts::{
    const_family, const_kind, constant_of, has_nil, is_constant, is_family, open_kind, represents,
    suits, type_family, untyped_kind,
};
use crate::take::is_integer_type;
use go_base::FaultCode;
use go_constants::Const;
use go_ints::Kind;
use go_typed::{Sort, TypedNode};
use go_types::{Shape, TypeId, Types};
use go_types_relations::{assignable, identical, underlying};

/// The number of the underlying type, or `None` for a declared type that has no right side yet (Go specification, "Underlying
/// types").
pub fn underlying_type(types: &Types, of: TypeId) -> Option<TypeId>
    requires { of < length types.now.shapes }
    ensures known { IfSome result (λ u. u < length types.now.shapes) }
    ensures tree { option_map (type_of types.now.shapes) result ≡ underlying_of (rights_of types.now) (type_of types.now.shapes of) }
{
    types.count();
    if types.is_open(of) {
        None
    } else {
        Some(types.underlying(of))
    }
}

fn same_underlying(types: &Types, one: TypeId, other: TypeId) -> bool
    requires one { one < length types.now.shapes }
    requires other { other < length types.now.shapes }
    ensures { result ≡ both_identical (underlying_of (rights_of types.now) (type_of types.now.shapes one)) (underlying_of (rights_of types.now) (type_of types.now.shapes other)) }
{
    match (underlying_type(types, one), underlying_type(types, other)) {
        (Some(one), Some(other)) => identical(types, one, other),
        _ => false,
    }
}

fn is_uint8(kind: Kind) -> bool
    ensures { result ≡ nat_eq (kind_number kind) (kind_number kinds.Uint8) }
{
    match kind {
        Kind::Uint8 => true,
        Kind::Int8 => false,
        Kind::Int16 => false,
        Kind::Int32 => false,
        Kind::Int64 => false,
        Kind::Uint16 => false,
        Kind::Uint32 => false,
        Kind::Uint64 => false,
        Kind::Int => false,
        Kind::Uint => false,
    }
}

/// Whether it is a slice whose elements have the underlying type `byte`.
fn is_bytes(types: &Types, of: TypeId) -> bool
    requires { of < length types.now.shapes }
    ensures { result ≡ is_bytes (rights_of types.now) (type_of types.now.shapes of) }
{
    match underlying(types, of) {
        Some(Shape::Slice { elem }) => match underlying(types, *elem) {
            Some(Shape::Int(kind)) => is_uint8(*kind),
            _ => false,
        },
        _ => false,
    }
}

fn is_text_type(types: &Types, of: TypeId) -> bool
    requires { of < length types.now.shapes }
    ensures { result ≡ is_text_type (rights_of types.now) (type_of types.now.shapes of) }
{
    is_family(Family::Texts, type_family(types, of))
}

/// Whether a constant is of the family of the type, so that it keeps its value.
pub fn keeps_value(types: &Types, to: TypeId, constant: Option<&Const>) -> bool
    requires { to < length types.now.shapes }
    ensures { result ≡ keeps_value (rights_of types.now) (type_of types.now.shapes to) (option_map (λ c. c.now) constant.entry) }
{
    match constant {
        Some(constant) => is_family(const_family(constant), type_family(types, to)),
        None => false,
    }
}

/// Whether it is an integer constant that becomes a text.
pub fn becomes_text(types: &Types, to: TypeId, constant: Option<&Const>) -> bool
    requires { to < length types.now.shapes }
    ensures { result ≡ becomes_text (rights_of types.now) (type_of types.now.shapes to) (option_map (λ c. c.now) constant.entry) }
{
    match constant {
        Some(Const::Int { .. }) => is_text_type(types, to),
        _ => false,
    }
}

fn converts_number(types: &Types, to: TypeId, from: TypeId, constant: bool) -> bool
    requires to { to < length types.now.shapes }
    requires from { from < length types.now.shapes }
    ensures { result ≡ converts_number (rights_of types.now) (type_of types.now.shapes to) (type_of types.now.shapes from) constant }
{
    is_integer_type(types, from)
        && (is_integer_type(types, to) || is_text_type(types, to))
        && !constant
}

fn converts_bytes(types: &Types, to: TypeId, from: TypeId) -> bool
    requires to { to < length types.now.shapes }
    requires from { from < length types.now.shapes }
    ensures { result ≡ converts_bytes (rights_of types.now) (type_of types.now.shapes to) (type_of types.now.shapes from) }
{
    (is_text_type(types, from) && is_bytes(types, to))
        || (is_bytes(types, from) && is_text_type(types, to))
}

/// Whether a value of the one type, constant or not, is converted to the other.
fn converts(types: &Types, to: TypeId, from: TypeId, constant: bool) -> bool
    requires to { to < length types.now.shapes }
    requires from { from < length types.now.shapes }
    ensures { result ≡ converts (rights_of types.now) (type_of types.now.shapes to) (type_of types.now.shapes from) constant }
{
    assignable(types, from, to)
        || same_underlying(types, from, to)
        || converts_number(types, to, from, constant)
        || converts_bytes(types, to, from)
}

/// The type of a value, or its default type.
fn value_type(types: &Types, basics: Basics, sort: &Sort) -> Option<TypeId>
    requires basics { AreBasics types.now basics }
    requires sort { KnownSort (length types.now.shapes) sort.now }
    ensures known { IfSome result (λ t. t < length types.now.shapes) }
    ensures tree { option_map (type_of types.now.shapes) result ≡ value_type (sort_seen types.now sort.now) }
{
    match sort {
        Sort::Value(of) => Some(*of),
        Sort::Constant(of, _) => Some(of.id()),
        Sort::Open(kind) => Some(default_type(types, basics, untyped_kind(*kind))),
        Sort::OpenConstant(constant) => Some(default_type(
            types,
            basics,
            const_kind(constant.get()),
        )),
        _ => None,
    }
}

/// The fault of operands that the operation here doesn't have, unless a test holds.
pub fn operands_unless(place: Place, holds: bool) -> Option<TypeFault>
    ensures { result ≡ least (operands_unless holds place.first place.last) }
{
    if holds {
        None
    } else {
        Some(place.fault(FaultCode::Operands))
    }
}

/// The fault of the conversion of an untyped value that isn't constant.
fn open_conversion(
    types: &Types,
    place: Place,
    to: TypeId,
    node: &TypedNode,
    kind: Option<OpenKind>,
) -> Option<TypeFault>
    requires to { to < length types.now.shapes }
    requires node { Known (length types.now.shapes) node.now }
    ensures { result ≡ least (open_conversion (rights_of types.now) place.first place.last (type_of types.now.shapes to) (seen types.now node.now) kind) }
{
    match kind {
        Some(kind) => if suits(types, kind, to) {
            unrepresented(types, to, node)
        } else {
            Some(place.fault(FaultCode::Operands))
        },
        None => Some(place.fault(FaultCode::Operands)),
    }
}

/// The fault of the conversion of what keeps no constant value.
fn value_conversion(
    types: &Types,
    basics: Basics,
    place: Place,
    to: TypeId,
    node: &TypedNode,
) -> Option<TypeFault>
    requires basics { AreBasics types.now basics }
    requires to { to < length types.now.shapes }
    requires node { Known (length types.now.shapes) node.now }
    ensures { let x = seen types.now node.now in result ≡ least (value_conversion (rights_of types.now) place.first place.last (type_of types.now.shapes to) x (sort_of x)) }
{
    let sort = sort_of(types, node);
    match sort {
        Sort::Nil => operands_unless(place, has_nil(types, to)),
        Sort::Open(_) => open_conversion(types, place, to, node, open_kind(types, sort)),
        _ => match value_type(types, basics, sort) {
            Some(from) => {
                let holds = converts(types, to, from, is_constant(types, sort));
                operands_unless(place, holds)
            }
            None => Some(place.fault(FaultCode::Operands)),
        },
    }
}

/// The fault of a conversion (Go specification, "Conversions"): `Representable` at a constant of the type's family that it
/// doesn't have, or at an untyped one that its own default type doesn't have; `Operands` here in every case but the seven.
pub fn conversion(
    types: &Types,
    basics: Basics,
    place: Place,
    to: TypeId,
    node: &TypedNode,
) -> Option<TypeFault>
    requires basics { AreBasics types.now basics }
    requires to { to < length types.now.shapes }
    requires node { Known (length types.now.shapes) node.now }
    ensures { result ≡ least (conversion_failing (rights_of types.now) place.first place.last (type_of types.now.shapes to) (seen types.now node.now)) }
{
    let sort = sort_of(types, node);
    if keeps_value(types, to, constant_of(types, sort)) {
        return kept_conversion(types, to, node);
    }
    if becomes_text(types, to, constant_of(types, sort)) {
        return undefaulted(types, basics, node);
    }
    value_conversion(types, basics, place, to, node)
}

/// The fault of a constant that keeps its value, where the type doesn't have it.
fn kept_conversion(types: &Types, to: TypeId, node: &TypedNode) -> Option<TypeFault>
    requires to { to < length types.now.shapes }
    requires node { Known (length types.now.shapes) node.now }
    ensures { let x = seen types.now node.now in result ≡ least (kept_conversion (rights_of types.now) (type_of types.now.shapes to) x (constant_of (sort_of x))) }
{
    match constant_of(types, sort_of(types, node)) {
        Some(constant) => if represents(types, to, constant) {
            None
        } else {
            Some(fault_at(types, node, FaultCode::Representable))
        },
        None => None,
    }
}
