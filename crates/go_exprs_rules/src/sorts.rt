//! What is asked of a sort.
ghost use Rattle.std.specs.Prelude.{◌≡◌, ◌<◌, IfSome, is_some, length};
ghost use Rattle.std.specs.Option.{option_map};
ghost use Rattle.go_types.specs.Tables.{type_of, rights_of};
ghost use Rattle.go_types_relations.specs.Tests.{underlying_of};
ghost use Rattle.go_typed.specs.Views.{sort_seen, KnownSort};
ghost use Rattle.go_exprs_rules.specs.Sorts.{family_of_const, family_of_open, family_of_type, kind_of_const, kind_of_untyped, open_kind, own_type, constant_of};
ghost use Rattle.go_exprs_rules.specs.Sorts.{is_open, takes_type, is_constant, is_nil, family_of, is_family, same_family, suits, has_nil, represents};

use crate::family::{Family, OpenKind};
use go_constants::{Basic, Const, represent};
use go_typed::{Sort, Untyped};
use go_types::{Shape, TypeId, Types};
use go_types_relations::underlying;

/// The family of a constant.
pub fn const_family(constant: &Const) -> Family
    ensures { result ≡ family_of_const constant.now }
{
    match constant {
        Const::Bool(_) => Family::Booleans,
        Const::Int { .. } => Family::Integers,
        Const::Text(_) => Family::Texts,
    }
}

/// The kind of an untyped constant.
pub fn const_kind(constant: &Const) -> OpenKind
    ensures { result ≡ kind_of_const constant.now }
{
    match constant {
        Const::Bool(_) => OpenKind::Boolean,
        Const::Int { rune: true, .. } => OpenKind::Rune,
        Const::Int { rune: false, .. } => OpenKind::Integer,
        Const::Text(_) => OpenKind::Text,
    }
}

/// The family of a kind of untyped values.
pub fn kind_family(kind: OpenKind) -> Family
    ensures { result ≡ family_of_open kind }
{
    match kind {
        OpenKind::Boolean => Family::Booleans,
        OpenKind::Integer | OpenKind::Rune => Family::Integers,
        OpenKind::Text => Family::Texts,
    }
}

/// The kind of an untyped value that is no constant.
pub fn untyped_kind(untyped: Untyped) -> OpenKind
    ensures { result ≡ kind_of_untyped untyped }
{
    match untyped {
        Untyped::Boolean => OpenKind::Boolean,
        Untyped::Integer => OpenKind::Integer,
        Untyped::Rune => OpenKind::Rune,
    }
}

/// The kind of what is untyped.
pub fn open_kind(_types: &Types, sort: &Sort) -> Option<OpenKind>
    ensures { result ≡ open_kind (sort_seen _types.now sort.now) }
{
    match sort {
        Sort::Open(Untyped::Boolean) => Some(OpenKind::Boolean),
        Sort::Open(Untyped::Integer) => Some(OpenKind::Integer),
        Sort::Open(Untyped::Rune) => Some(OpenKind::Rune),
        Sort::OpenConstant(constant) => Some(const_kind(constant.get())),
        _ => None,
    }
}

/// Whether it is an untyped value.
pub fn is_open(_types: &Types, sort: &Sort) -> bool
    ensures { result ≡ is_open (sort_seen _types.now sort.now) }
{
    matches!(sort, Sort::Open(_) | Sort::OpenConstant(_))
}

/// The type of what has one.
pub fn own_type(types: &Types, sort: &Sort) -> Option<TypeId>
    requires { KnownSort (length types.now.shapes) sort.now }
    ensures known { IfSome result (λ t. t < length types.now.shapes) }
    ensures tree { option_map (type_of types.now.shapes) result ≡ own_type (sort_seen types.now sort.now) }
{
    match sort {
        Sort::Value(of) => Some(*of),
        Sort::Constant(of, _) => Some(of.id()),
        _ => None,
    }
}

/// The constant that it is, if it is one.
pub fn constant_of<'a>(_types: &Types, sort: &'a Sort) -> Option<&'a Const>
    ensures { option_map (λ c. c.now) result ≡ constant_of (sort_seen _types.now sort.now) }
{
    match sort {
        Sort::Constant(_, constant) => Some(constant.get()),
        Sort::OpenConstant(constant) => Some(constant.get()),
        _ => None,
    }
}

/// Whether it is a constant.
pub fn is_constant(_types: &Types, sort: &Sort) -> bool
    ensures { result ≡ is_constant (sort_seen _types.now sort.now) }
{
    matches!(sort, Sort::Constant(_, _) | Sort::OpenConstant(_))
}

/// Whether it is `nil`.
pub fn is_nil(_types: &Types, sort: &Sort) -> bool
    ensures { result ≡ is_nil (sort_seen _types.now sort.now) }
{
    matches!(sort, Sort::Nil)
}

/// Whether it has no type of its own and takes that of its place: an untyped value, or `nil`.
pub fn takes_type(_types: &Types, sort: &Sort) -> bool
    ensures { result ≡ takes_type (sort_seen _types.now sort.now) }
{
    matches!(sort, Sort::Open(_) | Sort::OpenConstant(_) | Sort::Nil)
}

/// The family of a type by its underlying type.
pub fn type_family(types: &Types, of: TypeId) -> Option<Family>
    requires { of < length types.now.shapes }
    ensures { result ≡ family_of_type (underlying_of (rights_of types.now) (type_of types.now.shapes of)) }
{
    match underlying(types, of) {
        Some(Shape::Bool) => Some(Family::Booleans),
        Some(Shape::Text) => Some(Family::Texts),
        Some(Shape::Int(_)) => Some(Family::Integers),
        _ => None,
    }
}

/// The family of a value of a basic type, or of an untyped one.
pub fn family(types: &Types, sort: &Sort) -> Option<Family>
    requires { KnownSort (length types.now.shapes) sort.now }
    ensures { result ≡ family_of (rights_of types.now) (sort_seen types.now sort.now) }
{
    match sort {
        Sort::Value(of) => type_family(types, *of),
        Sort::Constant(of, _) => type_family(types, of.id()),
        Sort::Open(Untyped::Boolean) => Some(Family::Booleans),
        Sort::Open(_) => Some(Family::Integers),
        Sort::OpenConstant(constant) => Some(const_family(constant.get())),
        _ => None,
    }
}

/// Whether it is there and this family.
pub fn is_family(one: Family, other: Option<Family>) -> bool
    ensures { result ≡ is_family one other }
{
    match other {
        Some(other) => is_same(one, other),
        None => false,
    }
}

fn is_same(one: Family, other: Family) -> bool
    ensures { result ≡ same_family one other }
{
    match (one, other) {
        (Family::Booleans, Family::Booleans) => true,
        (Family::Integers, Family::Integers) => true,
        (Family::Texts, Family::Texts) => true,
        _ => false,
    }
}

/// Whether an untyped value of the kind may take the type.
pub fn suits(types: &Types, kind: OpenKind, of: TypeId) -> bool
    requires { of < length types.now.shapes }
    ensures { result ≡ suits (rights_of types.now) kind (type_of types.now.shapes of) }
{
    is_family(kind_family(kind), type_family(types, of))
}

/// Whether `nil` is a value of the type.
pub fn has_nil(types: &Types, of: TypeId) -> bool
    requires { of < length types.now.shapes }
    ensures { result ≡ has_nil (underlying_of (rights_of types.now) (type_of types.now.shapes of)) }
{
    match underlying(types, of) {
        Some(Shape::Slice { .. }) => true,
        Some(Shape::Func { .. }) => true,
        _ => false,
    }
}

/// Whether the type has the constant's value (Go specification, "Representability").
pub fn represents(types: &Types, of: TypeId, constant: &Const) -> bool
    requires { of < length types.now.shapes }
    ensures { result ≡ represents (rights_of types.now) (type_of types.now.shapes of) constant.now }
{
    match underlying(types, of) {
        Some(Shape::Bool) => represent(constant, Basic::Bool),
        Some(Shape::Text) => represent(constant, Basic::Text),
        Some(Shape::Int(kind)) => represent(constant, Basic::Int(*kind)),
        _ => false,
    }
}
