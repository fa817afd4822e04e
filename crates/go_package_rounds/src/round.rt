//! The rounds of judging.
ghost use Rattle.std.specs.Prelude.{◌≡◌, List, IfOk, length, map};
ghost use Rattle.go_types.specs.Tables.{IsTable, rights_of};
ghost use Rattle.go_types_relations.specs.Extends.{Extends, Grows};
ghost use Rattle.go_package_defs.specs.Knowledge as knowledge;
ghost use Rattle.go_package_defs.specs.Knowledge.{State};
ghost use Rattle.go_package_defs.specs.Sources as sources;
ghost use Rattle.go_package_defs.specs.Verdicts.{known, next_states};
ghost use Rattle.go_package_rounds.specs.Held.{all_seen, summary, AllHeld};
ghost use Rattle.go_package_rounds.specs.World.{package_in, outlines_in, Fits, Shows, StandsFor, KnownStandings};

use crate::held::{Held, all_read_alike};
use crate::judge::judge;
use crate::rights::take_rights;
use crate::standing::standings_from;
use crate::world::{World, round_count};
use go_base::Memory;
use go_exprs_types::Standing;
use go_types::Types;
use std::alloc::Global;

/// What is found of all objects, by what they stood for before.
fn judge_all(
    alloc: Global,
    types: &mut Types,
    world: &World<'_>,
    sound: &[Standing],
    told: &[Standing],
) -> Result<Vec<Held>, Memory>
    requires fits { Fits types.old world.now }
    requires sound { KnownStandings (length types.old.shapes) sound.now }
    requires told { KnownStandings (length types.old.shapes) told.now }
    ensures grows { Grows types.old types.new }
    ensures shows { let p = package_in world.now in let os = outlines_in world.now in
        (ss : List State) → StandsFor types.old world.now knowledge.is_sound sound.now ss → StandsFor types.old world.now knowledge.is_told told.now ss → rights_of types.old ≡ knowledge.rights_of p ss
        → IfOk result (λ v. all_seen types.new v.items ≡ map summary (next_states p os ss 0 os)) }
    ensures known { IfOk result (λ v. AllHeld (length types.new.shapes) v.items) }
{
    types.count();
    let mut found = Vec::new(alloc);
    for number in 0..world.uses.package_objects().len() {
        let known = judge(alloc, types, world, sound, told, number)?;
        found.push(known)?;
    }
    Ok(found)
}

/// What is known after one round more.
///
/// # Errors
///
/// Want of memory.
pub fn round(
    alloc: Global,
    types: &mut Types,
    world: &World<'_>,
    all: &[Held],
) -> Result<Vec<Held>, Memory>
    requires fits { Fits types.old world.now }
    requires known { AllHeld (length types.old.shapes) all.now }
    ensures table { IsTable types.old }
    ensures extends { Extends types.old types.new }
    ensures shows { let p = package_in world.now in let os = outlines_in world.now in (ss : List State) → Shows types.old world.now all.now ss → IfOk result (λ v. Shows types.new world.now v.items (next_states p os ss 0 os)) }
    ensures known { IfOk result (λ v. AllHeld (length types.new.shapes) v.items) }
{
    types.count();
    let standings = standings_from(alloc, types, world, all)?;
    let found = judge_all(alloc, types, world, &standings.sound, &standings.told)?;
    take_rights(types, world, all, &found)?;
    Ok(found)
}

/// What is known after all rounds, from what is known at first.
///
/// # Errors
///
/// Want of memory.
pub fn rounds(
    alloc: Global,
    types: &mut Types,
    world: &World<'_>,
    first: Vec<Held>,
) -> Result<Vec<Held>, Memory>
    requires fits { Fits types.old world.now }
    requires known { AllHeld (length types.old.shapes) first.items }
    ensures extends { Extends types.old types.new }
    ensures shows { let p = package_in world.now in let os = outlines_in world.now in Shows types.old world.now first.items (known p os 0) → IfOk result (λ v. Shows types.new world.now v.items (known p os (sources.rounds p))) }
    ensures known { IfOk result (λ v. AllHeld (length types.new.shapes) v.items) }
{
    types.count();
    let most = round_count(world)?;
    let mut all = first;
    for number in 0..most {
        let next = round(alloc, types, world, &all)?;
        if all_read_alike(&all, &next) {
            return Ok(next);
        }
        let _number = number;
        all = next;
    }
    Ok(all)
}
