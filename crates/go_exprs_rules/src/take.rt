//! What operands take of their place.
ghost use Rattle.std.specs.Prelude.{◌≡◌, ◌<◌, length};
ghost use Rattle.go_types.specs.Tables.{type_of, rights_of};
ghost use Rattle.go_typed.specs.Views.{sort_seen, KnownSort};
ghost use Rattle.go_exprs_rules.specs.Seen.{AreBasics};
ghost use Rattle.go_exprs_rules.specs.Takes.{take_seen, KnownTake};
ghost use Rattle.go_exprs_rules.specs.Operators.{unary_take, binary_take, shifted_take, compared_take};
ghost use Rattle.go_exprs_rules.specs.Calls.{is_integer_type, conversion_take};

use crate::basics::{Basics, default_type};
use crate::compare::compared_in;
use crate::family::Family;
use crate::operators::{Joint, common};
use crate::shift::is_whole;
use crate::sorts::{is_constant, is_family, is_nil, type_family};
use go_typed::Sort;
use go_types::{TypeId, Types};

/// What an operand takes of its place.
#[derive(Clone, Copy, Debug, PartialEq, Eq)]
pub enum Take {
    /// Nothing yet.
    Stay,
    /// Its default type.
    Default,
    /// A type.
    As(TypeId),
}

/// What both operands of a binary operator take: their common type; two untyped constants their default types.
pub fn binary_take(types: &Types, left: &Sort, right: &Sort) -> Take
    requires left { KnownSort (length types.now.shapes) left.now }
    requires right { KnownSort (length types.now.shapes) right.now }
    ensures known { KnownTake (length types.now.shapes) result }
    ensures tree { take_seen types.now result ≡ binary_take (rights_of types.now) (sort_seen types.now left.now) (sort_seen types.now right.now) }
{
    match common(types, left, right) {
        None => Take::Stay,
        Some(Joint::Type(of)) => Take::As(of),
        Some(Joint::Kind(_)) => shifted_take(types, left, right),
    }
}

/// What the operand of a unary operator takes: its default type in a constant operation; else it waits for its context.
pub fn unary_take(types: &Types, operand: &Sort) -> Take
    ensures known { KnownTake (length types.now.shapes) result }
    ensures tree { take_seen types.now result ≡ unary_take (sort_seen types.now operand.now) }
{
    if is_constant(types, operand) {
        Take::Default
    } else {
        Take::Stay
    }
}

/// What the left operand of a shift takes: its default type in a constant shift; else it waits for its context.
pub fn shifted_take(types: &Types, left: &Sort, count: &Sort) -> Take
    ensures known { KnownTake (length types.now.shapes) result }
    ensures tree { take_seen types.now result ≡ shifted_take (sort_seen types.now left.now) (sort_seen types.now count.now) }
{
    if is_constant(types, left) && is_constant(types, count) {
        Take::Default
    } else {
        Take::Stay
    }
}

/// What both operands of a comparison take.
pub fn compared_take(types: &Types, basics: Basics, left: &Sort, right: &Sort) -> Take
    requires basics { AreBasics types.now basics }
    requires left { KnownSort (length types.now.shapes) left.now }
    requires right { KnownSort (length types.now.shapes) right.now }
    ensures known { KnownTake (length types.now.shapes) result }
    ensures tree { take_seen types.now result ≡ compared_take (rights_of types.now) (sort_seen types.now left.now) (sort_seen types.now right.now) }
{
    match compared_in(types, left, right) {
        None => Take::Stay,
        Some(Joint::Type(of)) => Take::As(of),
        Some(Joint::Kind(kind)) => {
            if is_constant(types, left) && is_constant(types, right) {
                return Take::Default;
            }
            Take::As(default_type(types, basics, kind))
        }
    }
}

/// Whether its underlying type is an integer type.
pub fn is_integer_type(types: &Types, of: TypeId) -> bool
    requires { of < length types.now.shapes }
    ensures { result ≡ is_integer_type (rights_of types.now) (type_of types.now.shapes of) }
{
    is_family(Family::Integers, type_family(types, of))
}

/// What the operand of a conversion takes: a type of integers or booleans, else its default type; `nil` takes the type.
pub fn conversion_take(types: &Types, to: TypeId, operand: &Sort) -> Take
    requires to { to < length types.now.shapes }
    requires operand { KnownSort (length types.now.shapes) operand.now }
    ensures known { KnownTake (length types.now.shapes) result }
    ensures tree { take_seen types.now result ≡ conversion_take (rights_of types.now) (type_of types.now.shapes to) (sort_seen types.now operand.now) }
{
    if is_integer_type(types, to) && is_whole(types, operand) {
        return Take::As(to);
    }
    if is_family(Family::Booleans, type_family(types, to)) || is_nil(types, operand) {
        return Take::As(to);
    }
    Take::Default
}
