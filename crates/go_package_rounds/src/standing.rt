//! What objects stand for in the scopes of a round.
ghost use Rattle.std.specs.Prelude.{◌≡◌, IfOk, List, length};
ghost use Rattle.go_types.specs.Tables.{Table};
ghost use Rattle.go_package_defs.specs.Knowledge as knowledge;
ghost use Rattle.go_package_defs.specs.Knowledge.{State};
ghost use Rattle.go_package_rounds.specs.Held as held;
ghost use Rattle.go_package_rounds.specs.Held.{standing_of, standings_of, all_seen, summary, AllHeld};
ghost use Rattle.go_package_rounds.specs.World.{Fits, Shows, StandsFor, KnownStandings};

use crate::held::{Held, all_sound, all_told};
use crate::world::World;
use go_base::Memory;
use go_exprs_types::Standing;
use go_needs::Passing;
use go_typed::Sort;
use go_types::Types;
use std::alloc::Global;

/// What the objects stand for where they are free of faults, and where they are told.
#[derive(Debug, Drop)]
pub struct Standings {
    pub sound: Vec<Standing>,
    pub told: Vec<Standing>,
}

fn sort_if(passes: bool, sort: &Sort) -> Result<Sort, Memory>
    ensures { IfOk result (λ s. s ≡ held.sort_if passes sort.now) }
{
    if passes {
        sort.shared()
    } else {
        Ok(Sort::Unknown)
    }
}

/// What an object stands for by the way in which it is needed, where it passes a test so.
fn standing(known: &Held, passing: Passing) -> Result<Standing, Memory>
    ensures { IfOk result (λ s. s ≡ standing_of known.now passing) }
{
    Ok(Standing {
        in_full: sort_if(passing.in_full, &known.stands)?,
        at_once: sort_if(passing.at_once, &known.stands)?,
        loosely: known.stands.shared()?,
    })
}

/// The same of all objects.
fn all_standing(alloc: Global, all: &[Held], passing: &[Passing]) -> Result<Vec<Standing>, Memory>
    ensures { IfOk result (λ v. v.items ≡ standings_of all.now passing.now) }
{
    if all.len() != passing.len() {
        return Err(Memory);
    }
    let mut standings = Vec::new(alloc);
    for number in 0..all.len() {
        standings.push(standing(&all[number], passing[number])?)?;
    }
    Ok(standings)
}

/// What the objects stand for in the scopes of the next round, by what is known of them.
///
/// # Errors
///
/// Want of memory.
pub fn standings_from(
    alloc: Global,
    types: &Types,
    world: &World<'_>,
    all: &[Held],
) -> Result<Standings, Memory>
    requires fits { Fits types.now world.now }
    requires known { AllHeld (length types.now.shapes) all.now }
    ensures sound { (ss : List State) → Shows types.now world.now all.now ss → IfOk result (λ s. StandsFor types.now world.now knowledge.is_sound s.sound.items ss) }
    ensures told { (ss : List State) → Shows types.now world.now all.now ss → IfOk result (λ s. StandsFor types.now world.now knowledge.is_told s.told.items ss) }
    ensures known_sound { IfOk result (λ s. KnownStandings (length types.now.shapes) s.sound.items) }
    ensures known_told { IfOk result (λ s. KnownStandings (length types.now.shapes) s.told.items) }
{
    let _types = types;
    let free = all_sound(alloc, all)?;
    let told = all_told(alloc, all)?;
    let passing_free = world.needs.passing(alloc, &free)?;
    let passing_told = world.needs.passing(alloc, &told)?;
    let in_sound = all_standing(alloc, all, &passing_free)?;
    let in_told = all_standing(alloc, all, &passing_told)?;
    Ok(Standings {
        sound: in_sound,
        told: in_told,
    })
}
