//! What is known at first: which objects are types.
ghost use Rattle.std.specs.Prelude.{◌≡◌, IfOk, Some, None, length, map, slice_get};
ghost use Rattle.go_package_defs.specs.Knowledge.{Outline};
ghost use Rattle.go_package_defs.specs.Verdicts.{first_state, first_states};
ghost use Rattle.go_package_rounds.specs.Held.{held_seen, all_seen, summary, KnownHeld, AllHeld};
ghost use Rattle.go_package_rounds.specs.World.{package_in, outlines_in, Fits};

use crate::held::Held;
use crate::judge::own_type;
use crate::world::{World, specification_at};
use go_base::Memory;
use go_tree::context::Entity;
use go_typed::Sort;
use go_types::Types;
use std::alloc::Global;

/// An object of which nothing is known but what it stands for.
fn only(stands: Sort) -> Held
    ensures { result ≡ record { right = None; stands = stands; fault = None; assigning = None } }
{
    Held {
        right: None,
        stands,
        fault: None,
        assigning: None,
    }
}

/// What is known of an object at first.
fn first_of(types: &Types, world: &World<'_>, number: usize) -> Result<Held, Memory>
    requires { Fits types.now world.now }
    ensures shows { (o : Outline) → slice_get (outlines_in world.now) number ≡ Some o → IfOk result (λ h. held_seen types.now h ≡ summary (first_state (package_in world.now) number o.specification.entity)) }
    ensures known { IfOk result (KnownHeld (length types.now.shapes)) }
{
    let Some(place) = world.needs.declaring(number) else {
        return Err(Memory);
    };
    let Some(specification) = specification_at(world, place.specification) else {
        return Err(Memory);
    };
    match specification.entity {
        Entity::Type => Ok(only(Sort::Type(own_type(types, world, number)?))),
        _ => Ok(only(Sort::Unknown)),
    }
}

/// What is known of all objects at first.
///
/// # Errors
///
/// Want of memory.
pub fn first(alloc: Global, types: &Types, world: &World<'_>) -> Result<Vec<Held>, Memory>
    requires { Fits types.now world.now }
    ensures shows { IfOk result (λ v. all_seen types.now v.items ≡ map summary (first_states (package_in world.now) 0 (outlines_in world.now))) }
    ensures known { IfOk result (λ v. AllHeld (length types.now.shapes) v.items) }
{
    let mut found = Vec::new(alloc);
    for number in 0..world.uses.package_objects().len() {
        let known = first_of(types, world, number)?;
        found.push(known)?;
    }
    Ok(found)
}
