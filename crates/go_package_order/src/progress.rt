//! What is found so far of the objects of a package.
ghost use Rattle.std.specs.Prelude.{◌≡◌, ℕ, IfOk, Some, length};
ghost use Rattle.go_stmts_defs.specs.Frames.{placed};
ghost use Rattle.go_types.specs.Tables.{rights_of};
ghost use Rattle.go_package_rounds.specs.Held.{KnownHeld, AllHeld};
ghost use Rattle.go_package_rounds.specs.Rights.{rights_held};
ghost use Rattle.go_package_rounds.specs.World.{Fits, KnownStandings};
ghost use Rattle.go_exprs_types.specs.Naming.{KnownStanding};
ghost use Rattle.go_package_order.specs.Progress.{IsFoundIn};

use crate::sides::sides_held;
use go_base::Memory;
use go_exprs_types::Standing;
use go_package_rounds::standing::standings_from;
use go_package_rounds::{Held, World};
use go_types::{TypeId, Types};
use std::alloc::Global;

/// What is held so far of each object, what the objects stand for in the scopes of those that are judged next, where they are free of
/// faults and where they are told, and the right sides that the table has, by the numbers of declared types.
#[derive(Debug, Drop)]
pub struct Progress {
    pub all: Vec<Held>,
    pub sound: Vec<Standing>,
    pub told: Vec<Standing>,
    pub rights: Vec<Option<TypeId>>,
}

/// What is found before any object is judged.
pub fn at_first(
    alloc: Global,
    types: &Types,
    world: &World<'_>,
    first: Vec<Held>,
) -> Result<Progress, Memory>
    requires fits { Fits types.now world.now }
    requires known { AllHeld (length types.now.shapes) first.items }
    requires rights { rights_of types.now ≡ rights_held types.now world.now.uses.now.package_level first.items }
    ensures { IfOk result (IsFoundIn types.now) }
{
    let standings = standings_from(alloc, types, world, &first)?;
    let rights = sides_held(alloc, world.uses.package_objects(), &first)?;
    Ok(Progress {
        all: first,
        sound: standings.sound,
        told: standings.told,
        rights,
    })
}

/// Puts down what is held of an object.
pub fn put_held(all: &mut Vec<Held>, number: usize, known: Held)
    ensures { (n : ℕ) → AllHeld n all.old.items → KnownHeld n known → AllHeld n all.new.items }
{
    if number >= all.len() {
        return;
    }
    all[number] = known;
}

/// Puts down what an object stands for.
pub fn put_standing(standings: &mut Vec<Standing>, number: usize, standing: Standing)
    ensures { (n : ℕ) → KnownStandings n standings.old.items → KnownStanding n standing → KnownStandings n standings.new.items }
{
    if number >= standings.len() {
        return;
    }
    standings[number] = standing;
}

/// Puts down the right side of a declared type.
pub fn put_right(rights: &mut Vec<Option<TypeId>>, place: usize, right: TypeId)
    ensures { rights.new.items ≡ placed place (Some right) rights.old.items }
{
    if place >= rights.len() {
        return;
    }
    rights[place] = Some(right);
}
