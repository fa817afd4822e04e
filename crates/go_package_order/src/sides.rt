//! The right sides of declared types, by their numbers.
ghost use Rattle.std.specs.Prelude.{◌≡◌, ◌++◌, ℕ, IfOk, IsTrue, OnOk, length};
ghost use Rattle.go_package_defs.specs.Knowledge.{is_type};
ghost use Rattle.go_types.specs.Tables.{Table};
ghost use Rattle.go_types_relations.specs.Extends.{Extends};
ghost use Rattle.go_package_rounds.specs.Held.{KnownRight, AllHeld};
ghost use Rattle.go_package_rounds.specs.Rights.{rights_held};
ghost use Rattle.go_package_rounds.specs.World.{AreNamed};
ghost use Rattle.go_package_order.specs.Progress.{KnownRights, HasRights, own_right, sides};

use crate::progress::put_right;
use go_base::Memory;
use go_package_rounds::rights::{entity_at, right_at};
use go_package_rounds::world::{named_type, type_number};
use go_package_rounds::{Held, World};
use go_stmts_parts::rights::give_right;
use go_tree::context::Entity;
use go_tree::object::Declared;
use go_types::{TypeId, Types};
use std::alloc::Global;

/// Adds the right side of an object, if it is a type.
fn add_right(
    rights: &mut Vec<Option<TypeId>>,
    entity: Entity,
    right: Option<TypeId>,
) -> Result<(), Memory>
    ensures { OnOk result (rights.new.items ≡ rights.old.items ++ own_right (is_type entity) right) }
{
    match entity {
        Entity::Type => {
            rights.push(right)?;
            Ok(())
        }
        _ => Ok(()),
    }
}

/// The right sides that are held of the objects that are types.
pub fn sides_held(
    alloc: Global,
    objects: &[Declared],
    all: &[Held],
) -> Result<Vec<Option<TypeId>>, Memory>
    ensures known { (n : ℕ) → AllHeld n all.now → IfOk result (λ v. KnownRights n v.items) }
    ensures are { IfOk result (λ v. (t : Table) → sides t v.items ≡ rights_held t objects.now all.now) }
{
    let mut rights = Vec::new(alloc);
    for number in 0..objects.len() {
        let entity = entity_at(objects, number)?;
        let right = right_at(all, number)?;
        add_right(&mut rights, entity, right)?;
    }
    Ok(rights)
}

/// Whether the right sides are those that are held of the objects.
pub fn are_held(
    alloc: Global,
    objects: &[Declared],
    all: &[Held],
    rights: &[Option<TypeId>],
) -> Result<bool, Memory>
    ensures { IfOk result (λ b. IsTrue b → (t : Table) → sides t rights.now ≡ rights_held t objects.now all.now) }
{
    let held = sides_held(alloc, objects, all)?;
    Ok(held.as_slice() == rights)
}

/// A type takes the right side that is found of it, if it has none yet and may take it.
pub fn give(
    types: &mut Types,
    world: &World<'_>,
    rights: &mut Vec<Option<TypeId>>,
    number: usize,
    right: Option<TypeId>,
) -> Result<(), Memory>
    requires named { AreNamed types.old world.now.named.now }
    requires right { KnownRight (length types.old.shapes) right }
    requires rights { HasRights types.old rights.old.items }
    ensures extends { Extends types.old types.new }
    ensures shapes { types.new.shapes ≡ types.old.shapes }
    ensures rights { OnOk result (HasRights types.new rights.new.items) }
{
    types.count();
    let Some(right) = right else {
        return Ok(());
    };
    let Some(place) = type_number(world.env, number) else {
        return Ok(());
    };
    let Some(named) = named_type(world.named, place as usize) else {
        return Ok(());
    };
    if !types.can_define(named, right) {
        return Ok(());
    }
    give_right(types, named, Some(right))?;
    put_right(rights, place as usize, right);
    Ok(())
}
