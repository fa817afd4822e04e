//! The declared types of a function's own locals (Go specification: Type declarations).
ghost use Rattle.std.specs.Prelude.{◌≡◌, ◌++◌, IfOk, OnOk, None, length, replicate};
ghost use Rattle.go_types.specs.Tables.{IsTable, rights_of};
ghost use Rattle.go_types_relations.specs.Extends.{Extends};
ghost use Rattle.go_package_defs.specs.Knowledge.{is_type};
ghost use Rattle.go_package_defs.specs.Bodies.{which_types, count_types};
ghost use Rattle.go_stmts.specs.Bodies.{IsOwn, AreOwn};

use go_base::Memory;
use go_tree::context::Entity;
use go_tree::object::Declared;
use go_types::{TypeId, Types};
use std::alloc::Global;

/// Declares a type for a local, if it is one.
fn own_type(types: &mut Types, entity: Entity) -> Result<Option<TypeId>, Memory>
    ensures table { IsTable types.old }
    ensures extends { Extends types.old types.new }
    ensures own { IfOk result (IsOwn types.old types.new (is_type entity)) }
{
    types.count();
    match entity {
        Entity::Type => {
            let of = types.declare()?;
            types.count();
            Ok(Some(of))
        }
        _ => Ok(None),
    }
}

/// Declares a type for each local that is one, and answers their numbers in the table by those of the locals: the right sides, none so
/// far, come behind those of the table.
///
/// # Errors
///
/// Want of memory.
pub fn own_types(
    alloc: Global,
    types: &mut Types,
    locals: &[Declared],
) -> Result<Vec<Option<TypeId>>, Memory>
    ensures extends { Extends types.old types.new }
    ensures rights { OnOk result (rights_of types.new ≡ rights_of types.old ++ replicate (count_types (which_types locals.now)) None) }
    ensures own { IfOk result (λ v. AreOwn types.new (length types.old.rights) (which_types locals.now) v.items) }
    ensures count { IfOk result (λ v. length v.items ≡ length locals.now) }
{
    types.count();
    let mut own = Vec::new(alloc);
    for local in locals {
        let of = own_type(types, local.entity)?;
        own.push(of)?;
    }
    Ok(own)
}
