//! What is answered of a package whose objects are known.
ghost use Rattle.std.specs.Prelude.{◌≡◌, true, ◌||◌, List, IfOk, IsTrue, is_some, length, map};
ghost use Rattle.std.specs.List.{list_all, list_any};
ghost use Rattle.std.specs.Option.{option_map};
ghost use Rattle.go_base.specs.Gives.{Gives};
ghost use Rattle.go_tree.specs.Failures.{least};
ghost use Rattle.go_types_relations.specs.Extends.{Grows};
ghost use Rattle.go_scopes.specs.Views.{failure_of};
ghost use Rattle.go_typed.specs.Packages.{referents, is_there};
ghost use Rattle.go_exprs.specs.Expressions.{failure_named};
ghost use Rattle.go_package_defs.specs.Answer.{answer_on, all_failures, package_failures, environment_of};
ghost use Rattle.go_package_defs.specs.Knowledge.{State, is_type};
ghost use Rattle.go_needs.specs.Passing.{is_faulty, is_misassigned};
ghost use Rattle.go_needs.specs.Tells.{TellsNeeds};
ghost use Rattle.go_package_rounds.specs.Held.{AllHeld};
ghost use Rattle.go_package_rounds.specs.World.{package_in, outlines_in, specifications_in, Fits, KnownStandings, Shows};
ghost use Rattle.go_package_types.specs.Known.{AreBlocked, Tells};
ghost use Rattle.go_package_types.specs.Answers.{environment_seen, KnownObjects, HasRight, HaveRights};

use crate::declare::referents;
use crate::faults::{Known, hidden_fault, specifications_fault};
use crate::main_function::note_mains;
use go_base::{Fault, Memory};
use go_exprs::TypeError;
use go_package_rounds::held::all_sound;
use go_package_rounds::standing::standings_from;
use go_package_rounds::{Held, World};
use go_tree::context::Entity;
use go_tree::object::Declared;
use go_typed::{Env, Sort};
use go_types::Types;
use std::alloc::Global;

/// What the objects stand for.
fn sorts(alloc: Global, all: &[Held]) -> Result<Vec<Sort>, Memory>
    ensures { IfOk result (λ v. v.items ≡ map (λ h. h.stands) all.now) }
{
    let mut sorts = Vec::new(alloc);
    for known in all {
        sorts.push(known.stands.shared()?)?;
    }
    Ok(sorts)
}

/// In which objects' types and expressions a rule fails.
fn all_faulty(alloc: Global, all: &[Held]) -> Result<Vec<bool>, Memory>
    ensures { IfOk result (λ v. v.items ≡ map (λ h. is_some h.fault) all.now) }
{
    let mut flags = Vec::new(alloc);
    for known in all {
        flags.push(known.fault.is_some())?;
    }
    Ok(flags)
}

/// At which objects' own assignments a rule fails.
fn all_misassigned(alloc: Global, all: &[Held]) -> Result<Vec<bool>, Memory>
    ensures { IfOk result (λ v. v.items ≡ map (λ h. is_some h.assigning) all.now) }
{
    let mut flags = Vec::new(alloc);
    for known in all {
        flags.push(known.assigning.is_some())?;
    }
    Ok(flags)
}

/// Whether a rule fails in the type or the expression of an object, or at its own assignment.
fn is_failing(faulty: &[bool], assigning: &[bool]) -> bool
    ensures { (ss : List State) → faulty.now ≡ map is_faulty ss → assigning.now ≡ map is_misassigned ss → result ≡ (list_any is_faulty ss || list_any is_misassigned ss) }
{
    faulty.contains(&true) || assigning.contains(&true)
}

/// Which specifications are seen at once to need a declaration with a fault. Where no rule fails none is looked at.
fn seen_blocked(
    alloc: Global,
    world: &World<'_>,
    faulty: &[bool],
    assigning: &[bool],
) -> Result<Vec<bool>, Memory>
    ensures { let p = package_in world.now in let ds = specifications_in world.now in IfOk result (λ v. (ss : List State) → TellsNeeds world.now.needs.now p ds → length ss ≡ length p.uses.package_level
        → faulty.now ≡ map is_faulty ss → assigning.now ≡ map is_misassigned ss → AreBlocked p ds (outlines_in world.now) ss v.items) }
{
    if is_failing(faulty, assigning) {
        world.needs.blocked_in_order(alloc, faulty, assigning)
    } else {
        Ok(Vec::new(alloc))
    }
}

/// The least fault of the declarations of a package, without those of the own rules of blocked specifications.
fn told_fault(
    alloc: Global,
    types: &mut Types,
    world: &World<'_>,
    all: &[Held],
    known: &Known<'_>,
) -> Result<Option<Fault>, Memory>
    requires fits { Fits types.old world.now }
    requires held { AllHeld (length types.old.shapes) all.now }
    requires known { KnownStandings (length types.old.shapes) known.now.sound.now }
    ensures grows { Grows types.old types.new }
    ensures fault { (ss : List State) → Shows types.old world.now all.now ss → Tells types.old world.now known.now ss
        → IfOk result (λ o. option_map failure_of o ≡ least (all_failures (package_in world.now) (outlines_in world.now) ss (specifications_in world.now))) }
{
    types.count();
    let found = specifications_fault(alloc, types, world, known)?;
    let sound = all_sound(alloc, all)?;
    let passing = world.needs.passing(alloc, &sound)?;
    note_mains(types, world, found, all, &passing)
}

/// The fault that is told; or, where there is none, the least fault of blocked specifications. Where no rule fails none is blocked.
fn unless_told(
    alloc: Global,
    types: &mut Types,
    world: &World<'_>,
    known: &Known<'_>,
    told: Option<Fault>,
) -> Result<Option<Fault>, Memory>
    requires fits { Fits types.old world.now }
    requires known { KnownStandings (length types.old.shapes) known.now.sound.now }
    ensures grows { Grows types.old types.new }
    ensures fault { let p = package_in world.now in let os = outlines_in world.now in let ds = specifications_in world.now in (ss : List State) → Tells types.old world.now known.now ss
        → option_map failure_of told ≡ least (all_failures p os ss ds) → IfOk result (λ o. option_map failure_of o ≡ least (package_failures p os ss ds)) }
{
    types.count();
    if told.is_some() {
        return Ok(told);
    }
    if is_failing(known.faulty, known.assigning) {
        hidden_fault(alloc, types, world, known)
    } else {
        Ok(told)
    }
}

/// The least fault of the declarations of a package.
fn least_fault(
    alloc: Global,
    types: &mut Types,
    world: &World<'_>,
    all: &[Held],
) -> Result<Option<Fault>, Memory>
    requires fits { Fits types.old world.now }
    requires held { AllHeld (length types.old.shapes) all.now }
    ensures grows { Grows types.old types.new }
    ensures fault { (ss : List State) → Shows types.old world.now all.now ss → IfOk result (λ o. option_map failure_of o ≡ least (package_failures (package_in world.now) (outlines_in world.now) ss (specifications_in world.now))) }
{
    types.count();
    let standings = standings_from(alloc, types, world, all)?;
    let faulty = all_faulty(alloc, all)?;
    let assigning = all_misassigned(alloc, all)?;
    let blocked = seen_blocked(alloc, world, &faulty, &assigning)?;
    let known = Known {
        sound: &standings.sound,
        faulty: &faulty,
        assigning: &assigning,
        blocked: &blocked,
    };
    let told = told_fault(alloc, types, world, all, &known)?;
    unless_told(alloc, types, world, &known, told)
}

/// Whether an object has a right side, if it is a type.
fn is_defined(object: &Declared, known: &Held) -> bool
    ensures { IsTrue result → HasRight (is_type object.now.entity) known.now }
{
    match object.entity {
        Entity::Type => known.right.is_some(),
        _ => true,
    }
}

/// Whether each object that is a type has a right side.
fn are_defined(objects: &[Declared], all: &[Held]) -> bool
    ensures { IsTrue result → HaveRights objects.now all.now }
{
    if all.len() != objects.len() {
        return false;
    }
    for number in 0..objects.len() {
        if !is_defined(&objects[number], &all[number]) {
            return false;
        }
    }
    true
}

/// The environment of a package without faults.
fn environment(alloc: Global, types: &Types, world: &World<'_>, all: &[Held]) -> Result<Env, Memory>
    requires held { AllHeld (length types.now.shapes) all.now }
    ensures seen { (ss : List State) → Shows types.now world.now all.now ss → IfOk result (λ e. environment_seen types.now e ≡ environment_of (package_in world.now) ss) }
    ensures defined { (ss : List State) → Shows types.now world.now all.now ss → IfOk result (λ _. list_all is_there types.now.rights ≡ true) }
    ensures referents { IfOk result (λ e. e.referents ≡ referents world.now.uses.now.package_level) }
    ensures known { IfOk result (KnownObjects (length types.now.shapes)) }
{
    types.count();
    let objects = world.uses.package_objects();
    if !are_defined(objects, all) {
        return Err(Memory);
    }
    let numbers = referents(alloc, objects)?;
    let sorts = sorts(alloc, all)?;
    Ok(Env::new(sorts, numbers))
}

/// What the objects of the package stand for; or the fault of its declarations that is reported.
///
/// # Errors
///
/// The fault, or want of memory. `Memory` is also answered where no rule fails and a type has no right side, which doesn't arise.
pub fn answer(
    alloc: Global,
    types: &mut Types,
    world: &World<'_>,
    all: &[Held],
) -> Result<Env, TypeError>
    requires fits { Fits types.old world.now }
    requires held { AllHeld (length types.old.shapes) all.now }
    ensures grows { Grows types.old types.new }
    ensures exact { (ss : List State) → Shows types.old world.now all.now ss → Gives (environment_seen types.new) failure_named result (answer_on (package_in world.now) (specifications_in world.now) (outlines_in world.now) ss) }
    ensures defined { (ss : List State) → Shows types.old world.now all.now ss → IfOk result (λ _. list_all is_there types.new.rights ≡ true) }
    ensures referents { IfOk result (λ e. e.referents ≡ referents world.now.uses.now.package_level) }
    ensures known { IfOk result (KnownObjects (length types.new.shapes)) }
{
    types.count();
    match least_fault(alloc, types, world, all)? {
        Some(fault) => Err(TypeError::Fault(fault)),
        None => Ok(environment(alloc, types, world, all)?),
    }
}
