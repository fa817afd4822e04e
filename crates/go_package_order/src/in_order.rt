//! All objects of a package, judged in an order, and whether that is what the rounds come to.
ghost use Rattle.std.specs.Prelude.{◌≡◌, true, List, IfOk, IfSome, length};
ghost use Rattle.go_types.specs.Tables.{IsTable};
ghost use Rattle.go_types_relations.specs.Extends.{Extends};
ghost use Rattle.go_package_defs.specs.Knowledge.{State};
ghost use Rattle.go_package_defs.specs.Sources.{rounds};
ghost use Rattle.go_package_defs.specs.Verdicts.{known, next_states};
ghost use Rattle.go_package_rounds.specs.Held.{AllHeld};
ghost use Rattle.go_package_rounds.specs.World.{package_in, outlines_in, Fits, Shows};
ghost use Rattle.go_package_order.specs.Progress.{IsFoundIn};

use crate::passes::pass_all;
use crate::progress::{Progress, at_first};
use crate::reaches::{are_closed, held_reaches, reaches_of};
use crate::sides::{are_held, sides_held};
use go_base::Memory;
use go_package_rounds::held::all_read_alike;
use go_package_rounds::round::round;
use go_package_rounds::{Held, World};
use go_package_stages::{Numbers, are_staged, plan_of};
use go_types::Types;
use std::alloc::Global;

/// What one round more finds of the objects, where scopes can't tell it from what is found, and the table has the right sides that are.
fn found_again(
    alloc: Global,
    types: &mut Types,
    world: &World<'_>,
    progress: &Progress,
) -> Result<Option<Vec<Held>>, Memory>
    requires fits { Fits types.old world.now }
    requires found { IsFoundIn types.old progress.now }
    ensures table { IsTable types.old }
    ensures extends { Extends types.old types.new }
    ensures shows { let p = package_in world.now in let os = outlines_in world.now in
        IfOk result (λ o. IfSome o (λ v. (ss : List State) × (next_states p os ss 0 os ≡ ss) × Shows types.new world.now v.items ss)) }
    ensures known { IfOk result (λ o. IfSome o (λ v. AllHeld (length types.new.shapes) v.items)) }
{
    types.count();
    let objects = world.uses.package_objects();
    if progress.all.len() != objects.len() {
        return Ok(None);
    }
    if !are_held(alloc, objects, &progress.all, &progress.rights)? {
        return Ok(None);
    }
    let next = round(alloc, types, world, &progress.all)?;
    if all_read_alike(&progress.all, &next) {
        Ok(Some(next))
    } else {
        Ok(None)
    }
}

/// Whether what a round finds again is what all rounds come to, by these numbers.
fn is_settled(
    alloc: Global,
    types: &Types,
    world: &World<'_>,
    numbers: &Numbers,
    all: &[Held],
) -> Result<bool, Memory>
    requires fits { Fits types.now world.now }
    ensures { let p = package_in world.now in let os = outlines_in world.now in
        IfOk result (λ b. b ≡ true → (ss : List State) → Shows types.now world.now all.now ss → next_states p os ss 0 os ≡ ss → known p os (rounds p) ≡ ss) }
{
    let reaches = reaches_of(alloc, types, &numbers.reach)?;
    let rights = sides_held(alloc, world.uses.package_objects(), all)?;
    if !are_closed(&numbers.reach, &reaches, &rights) {
        return Ok(false);
    }
    let reached = held_reaches(alloc, &reaches, all)?;
    let staged = are_staged(
        alloc,
        world.uses,
        world.specifications,
        world.needs,
        numbers,
        &reached,
    )?;
    Ok(staged)
}

/// What is known of the objects of a package after all rounds of judging, from what is known at first, where each can be judged behind
/// those that it needs (Go specification, "Declarations and scope"); else nothing, and the table has types and right sides more.
///
/// # Errors
///
/// Want of memory.
pub fn judge_in_order(
    alloc: Global,
    types: &mut Types,
    world: &World<'_>,
    first: Vec<Held>,
) -> Result<Option<Vec<Held>>, Memory>
    requires fits { Fits types.old world.now }
    requires known { AllHeld (length types.old.shapes) first.items }
    requires first { let p = package_in world.now in Shows types.old world.now first.items (known p (outlines_in world.now) 0) }
    ensures extends { Extends types.old types.new }
    ensures shows { let p = package_in world.now in IfOk result (λ o. IfSome o (λ v. Shows types.new world.now v.items (known p (outlines_in world.now) (rounds p)))) }
    ensures known { IfOk result (λ o. IfSome o (λ v. AllHeld (length types.new.shapes) v.items)) }
{
    types.count();
    let plan = plan_of(alloc, world.uses, world.specifications, world.needs)?;
    let mut progress = at_first(alloc, types, world, first)?;
    pass_all(alloc, types, world, &mut progress, &plan)?;
    let Some(all) = found_again(alloc, types, world, &progress)? else {
        return Ok(None);
    };
    if is_settled(alloc, types, world, &plan.numbers, &all)? {
        Ok(Some(all))
    } else {
        Ok(None)
    }
}
