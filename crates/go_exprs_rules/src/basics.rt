//! The predeclared types that rules give.
ghost use Rattle.std.specs.Prelude.{◌≡◌, ◌<◌, length};
ghost use Rattle.go_types.specs.Tables.{type_of};
ghost use Rattle.go_exprs_rules.specs.Seen.{AreBasics};
ghost use Rattle.go_exprs_rules.specs.Sorts.{default_type};

use crate::family::OpenKind;
use go_types::{TypeId, Types};

/// The numbers of some types in a table: those that rules give where no type is written.
#[derive(Clone, Copy, Debug, PartialEq, Eq)]
pub struct Basics {
    pub boolean: TypeId,
    pub text: TypeId,
    pub int: TypeId,
    pub uint: TypeId,
    pub byte: TypeId,
    pub rune: TypeId,
    /// The type `func()`.
    pub procedure: TypeId,
}

/// The type that an untyped value takes where its context wants none (Go specification, "Constants").
pub fn default_type(types: &Types, basics: Basics, kind: OpenKind) -> TypeId
    requires { AreBasics types.now basics }
    ensures known { result < length types.now.shapes }
    ensures tree { type_of types.now.shapes result ≡ default_type kind }
{
    match kind {
        OpenKind::Boolean => basics.boolean,
        OpenKind::Integer => basics.int,
        OpenKind::Rune => basics.rune,
        OpenKind::Text => basics.text,
    }
}
