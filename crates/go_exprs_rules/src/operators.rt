//! Operators.
ghost use Rattle.std.specs.Prelude.{◌≡◌, ◌<◌, IfSome, length};
ghost use Rattle.std.specs.Option.{option_map};
ghost use Rattle.go_types.specs.Tables.{type_of, rights_of};
ghost use Rattle.go_typed.specs.Views.{sort_seen, KnownSort};
ghost use Rattle.go_exprs_rules.specs.Seen.{common_seen, KnownJoint};
ghost use Rattle.go_exprs_rules.specs.Calls.{met};
ghost use Rattle.go_exprs_rules.specs.Operators.{common_kind, one_typed, open_kinds, common, family_in};

use crate::family::{Family, OpenKind};
use crate::sorts::{kind_family, open_kind, own_type, suits, type_family};
use go_typed::Sort;
use go_types::{TypeId, Types};
use go_types_relations::identical;

/// Where two operands meet: in a type, or in a kind where both are untyped.
#[derive(Clone, Copy, Debug, PartialEq, Eq)]
pub enum Joint {
    Type(TypeId),
    Kind(OpenKind),
}

/// The kind of two untyped operands together.
fn common_kind(one: OpenKind, other: OpenKind) -> Option<OpenKind>
    ensures { result ≡ common_kind one other }
{
    match (one, other) {
        (OpenKind::Boolean, OpenKind::Boolean) => Some(OpenKind::Boolean),
        (OpenKind::Text, OpenKind::Text) => Some(OpenKind::Text),
        (OpenKind::Integer, OpenKind::Integer) => Some(OpenKind::Integer),
        (OpenKind::Integer, OpenKind::Rune) => Some(OpenKind::Rune),
        (OpenKind::Rune, OpenKind::Integer) => Some(OpenKind::Rune),
        (OpenKind::Rune, OpenKind::Rune) => Some(OpenKind::Rune),
        _ => None,
    }
}

fn one_typed(types: &Types, of: TypeId, other: Option<OpenKind>) -> Option<Joint>
    requires { of < length types.now.shapes }
    ensures known { IfSome result (KnownJoint (length types.now.shapes)) }
    ensures tree { option_map (common_seen types.now) result ≡ one_typed (rights_of types.now) (type_of types.now.shapes of) other }
{
    match other {
        Some(kind) => if suits(types, kind, of) {
            Some(Joint::Type(of))
        } else {
            None
        },
        None => None,
    }
}

fn open_kinds(types: &Types, one: Option<OpenKind>, other: Option<OpenKind>) -> Option<Joint>
    ensures known { IfSome result (KnownJoint (length types.now.shapes)) }
    ensures tree { option_map (common_seen types.now) result ≡ open_kinds one other }
{
    match (one, other) {
        (Some(one), Some(other)) => match common_kind(one, other) {
            Some(kind) => Some(Joint::Kind(kind)),
            None => None,
        },
        _ => None,
    }
}

/// Where the operands of a binary operator meet (Go specification, "Operators"): an untyped one takes the other's type, two
/// untyped ones stay untyped.
pub fn common(types: &Types, left: &Sort, right: &Sort) -> Option<Joint>
    requires left { KnownSort (length types.now.shapes) left.now }
    requires right { KnownSort (length types.now.shapes) right.now }
    ensures known { IfSome result (KnownJoint (length types.now.shapes)) }
    ensures tree { option_map (common_seen types.now) result ≡ common (rights_of types.now) (sort_seen types.now left.now) (sort_seen types.now right.now) }
{
    match (own_type(types, left), own_type(types, right)) {
        (Some(of), Some(other)) => if identical(types, of, other) {
            Some(Joint::Type(of))
        } else {
            None
        },
        (Some(of), None) => one_typed(types, of, open_kind(types, right)),
        (None, Some(of)) => one_typed(types, of, open_kind(types, left)),
        (None, None) => open_kinds(types, open_kind(types, left), open_kind(types, right)),
    }
}

/// Where values meet of which some meet in the one and the others in the other: in one type, which untyped ones take, or untyped.
pub fn met(types: &Types, one: Option<Joint>, other: Option<Joint>) -> Option<Joint>
    requires one { IfSome one (KnownJoint (length types.now.shapes)) }
    requires other { IfSome other (KnownJoint (length types.now.shapes)) }
    ensures known { IfSome result (KnownJoint (length types.now.shapes)) }
    ensures tree { option_map (common_seen types.now) result ≡ met (rights_of types.now) (option_map (common_seen types.now) one) (option_map (common_seen types.now) other) }
{
    match (one, other) {
        (Some(Joint::Type(of)), Some(Joint::Type(other))) => if identical(types, of, other) {
            Some(Joint::Type(of))
        } else {
            None
        },
        (Some(Joint::Type(of)), Some(Joint::Kind(kind))) => one_typed(types, of, Some(kind)),
        (Some(Joint::Kind(kind)), Some(Joint::Type(of))) => one_typed(types, of, Some(kind)),
        (Some(Joint::Kind(one)), Some(Joint::Kind(other))) => open_kinds(
            types,
            Some(one),
            Some(other),
        ),
        _ => None,
    }
}

/// The family of that in which two operands meet.
pub fn joint_family(types: &Types, joint: Joint) -> Option<Family>
    requires { KnownJoint (length types.now.shapes) joint }
    ensures { result ≡ family_in (rights_of types.now) (common_seen types.now joint) }
{
    match joint {
        Joint::Type(of) => type_family(types, of),
        Joint::Kind(kind) => Some(kind_family(kind)),
    }
}
