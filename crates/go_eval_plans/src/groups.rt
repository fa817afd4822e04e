//! Underlying types, as far as plans ask for them.

ghost use Rattle.std.specs.Prelude.{◌≡◌, ◌<◌, IfSome, length};
ghost use Rattle.go_types.specs.Tables.{type_of, rights_of};
ghost use Rattle.go_meaning.specs.Planning.{shape_of};
ghost use Rattle.go_eval_plans.specs.Known.{KnownGroup};
ghost use Rattle.go_eval_plans.specs.Views.{type_in, IsGroup};

use go_ints::Kind;
use go_types::{Shape, TypeId, Types};
use go_types_relations::underlying;

/// What an underlying type is (Go specification: Types).
#[derive(Clone, Copy, Debug)]
pub enum Group {
    Boolean,
    Text,
    Integer(Kind),
    Array { length: u32, elem: TypeId },
    Slice { elem: TypeId },
    /// A struct or a function.
    Other,
}

/// What the underlying type is (Go specification: Underlying types); that of no type, or of a declared one without a right
/// side, counts as a boolean type.
pub fn group_of(types: &Types, ty: Option<TypeId>) -> Group
    requires { IfSome ty (λ a. a < length types.now.shapes) }
    ensures group { IsGroup (type_of types.now.shapes) result (shape_of (rights_of types.now) (type_in (type_of types.now.shapes) ty)) }
    ensures known { KnownGroup (length types.now.shapes) result }
{
    let Some(a) = ty else {
        return Group::Boolean;
    };
    match underlying(types, a) {
        None | Some(Shape::Bool) => Group::Boolean,
        Some(Shape::Text) => Group::Text,
        Some(Shape::Int(kind)) => Group::Integer(*kind),
        Some(Shape::Array { length, elem }) => Group::Array {
            length: *length,
            elem: *elem,
        },
        Some(Shape::Slice { elem }) => Group::Slice { elem: *elem },
        Some(_) => Group::Other,
    }
}
