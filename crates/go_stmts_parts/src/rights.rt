//! How a table of types takes the right side of a local type (Go specification: Type definitions).
ghost use Rattle.std.specs.Prelude.{◌≡◌, ℕ, ◌<◌, IfSome, OnOk, Some, None, length};
ghost use Rattle.std.specs.Option.{option_map};
ghost use Rattle.go_types.specs.Trees.{declared};
ghost use Rattle.go_types.specs.Tables.{type_of, rights_of};
ghost use Rattle.go_types_relations.specs.Extends.{Extends};
ghost use Rattle.go_stmts_defs.specs.Frames.{placed};

use go_base::Memory;
use go_types::{TypeId, Types};

/// Gives a declared type its right side.
fn define(types: &mut Types, named: TypeId, right: TypeId) -> Result<(), Memory>
    requires named { named < length types.old.shapes }
    requires right { right < length types.old.shapes }
    ensures extends { Extends types.old types.new }
    ensures shapes { types.new.shapes ≡ types.old.shapes }
    ensures rights { (n : ℕ) → type_of types.old.shapes named ≡ declared n → OnOk result (rights_of types.new ≡ placed n (Some (type_of types.old.shapes right)) (rights_of types.old)) }
{
    types.count();
    if types.can_define(named, right) {
        types.define(named, right);
        Ok(())
    } else {
        Err(Memory)
    }
}

/// A declared type has no right side.
fn leave_open(types: &Types, named: TypeId) -> Result<(), Memory>
    requires { named < length types.now.shapes }
    ensures { (n : ℕ) → type_of types.now.shapes named ≡ declared n → OnOk result (rights_of types.now ≡ placed n None (rights_of types.now)) }
{
    types.count();
    if types.is_open(named) {
        Ok(())
    } else {
        Err(Memory)
    }
}

/// Gives a declared type this right side, or none.
///
/// # Errors
///
/// `Memory`, also where the type has a right side already, and where the right side contains a type that has none: the table holds
/// no such types, and resolved names make none.
pub fn give_right(types: &mut Types, named: TypeId, right: Option<TypeId>) -> Result<(), Memory>
    requires named { named < length types.old.shapes }
    requires right { IfSome right (λ r. r < length types.old.shapes) }
    ensures extends { Extends types.old types.new }
    ensures shapes { types.new.shapes ≡ types.old.shapes }
    ensures rights { (n : ℕ) → type_of types.old.shapes named ≡ declared n → OnOk result (rights_of types.new ≡ placed n (option_map (type_of types.old.shapes) right) (rights_of types.old)) }
{
    match right {
        Some(right) => define(types, named, right),
        None => leave_open(types, named),
    }
}
