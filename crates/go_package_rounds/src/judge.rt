//! One object, judged by what was known before.
ghost use Rattle.std.specs.Prelude.{◌≡◌, ℕ, ◌<◌, List, Some, IfOk, IfSome, length, slice_get};
ghost use Rattle.std.specs.Option.{option_map};
ghost use Rattle.go_types.specs.Tables.{type_of, rights_of};
ghost use Rattle.go_types_relations.specs.Extends.{Grows};
ghost use Rattle.go_exprs_rules.specs.Faults.{least};
ghost use Rattle.go_exprs_rules.specs.Scopes as scopes;
ghost use Rattle.go_package_defs.specs.Knowledge as knowledge;
ghost use Rattle.go_package_defs.specs.Knowledge.{Outline, State, outlines, free_scope, told_scope};
ghost use Rattle.go_package_defs.specs.Verdicts.{own_type, own_faults, value_state, type_state, type_faults, typed_type, right_found, state_by};
ghost use Rattle.go_declarations.specs.Reads.{SpecificationRead};
ghost use Rattle.go_declarations.specs.Views.{specification_view};
ghost use Rattle.go_package_defs.specs.Sources.{text_at};
ghost use Rattle.go_package_rounds.specs.Held.{held_seen, summary, KnownHeld, KnownRight};
ghost use Rattle.go_package_rounds.specs.World.{package_in, outlines_in, Fits, StandsFor, KnownStandings, specifications_in};

use crate::held::Held;
use crate::scope::{locals_at, scope_in, tokens_of};
use crate::world::{World, named_type, specification_at, type_number};
use go_base::Memory;
use go_declarations::Specification;
use go_declarations::judging::{judge_name, right_side, type_fault};
use go_exprs_rules::TypeFault;
use go_exprs_types::Standing;
use go_tree::context::Entity;
use go_typed::Sort;
use go_types::{TypeId, Types};
use std::alloc::Global;

/// What is found of the name of this number of a specification that declares no type.
fn judge_value(
    alloc: Global,
    types: &mut Types,
    world: &World<'_>,
    sound: &[Standing],
    specification: &Specification<'_>,
    column: usize,
) -> Result<Held, Memory>
    requires fits { Fits types.old world.now }
    requires known { KnownStandings (length types.old.shapes) sound.now }
    requires literals { let d = specification_view specification.now in SpecificationRead (text_at (package_in world.now) d.file) d }
    ensures grows { Grows types.old types.new }
    ensures shows { let d = specification_view specification.now in (ss : List State) → StandsFor types.old world.now knowledge.is_sound sound.now ss → rights_of types.old ≡ knowledge.rights_of (package_in world.now) ss
        → let s = free_scope (package_in world.now) (outlines_in world.now) ss d in IfOk result (λ h. held_seen types.new h ≡ summary (value_state s d column (own_faults s d column))) }
    ensures known { IfOk result (KnownHeld (length types.new.shapes)) }
{
    types.count();
    let Some(tokens) = tokens_of(world, specification.file) else {
        return Err(Memory);
    };
    let locals = locals_at(alloc, specification.iota)?;
    let scope = scope_in(world, tokens, &locals, sound, specification.entity, true);
    let verdict = judge_name(alloc, types, &scope, specification, column)?;
    Ok(Held {
        right: None,
        stands: verdict.stands,
        fault: verdict.fault,
        assigning: verdict.assigning,
    })
}

/// The right side of a type, as far as it is known.
fn right_of(
    alloc: Global,
    types: &mut Types,
    world: &World<'_>,
    told: &[Standing],
    specification: &Specification<'_>,
) -> Result<Option<TypeId>, Memory>
    requires fits { Fits types.old world.now }
    requires known { KnownStandings (length types.old.shapes) told.now }
    requires literals { let d = specification_view specification.now in SpecificationRead (text_at (package_in world.now) d.file) d }
    ensures grows { Grows types.old types.new }
    ensures right { let d = specification_view specification.now in (ss : List State) → StandsFor types.old world.now knowledge.is_told told.now ss → rights_of types.old ≡ knowledge.rights_of (package_in world.now) ss
        → let s = told_scope (package_in world.now) (outlines_in world.now) ss d in IfOk result (λ t. option_map (type_of types.new.shapes) t ≡ right_found (type_faults s d) (typed_type s d)) }
    ensures known { IfOk result (KnownRight (length types.new.shapes)) }
{
    types.count();
    let Some(tokens) = tokens_of(world, specification.file) else {
        return Err(Memory);
    };
    let locals = locals_at(alloc, specification.iota)?;
    let scope = scope_in(world, tokens, &locals, told, specification.entity, false);
    right_side(alloc, types, &scope, specification)
}

/// The least of the rules that fail in a type.
fn fault_of(
    alloc: Global,
    types: &mut Types,
    world: &World<'_>,
    sound: &[Standing],
    specification: &Specification<'_>,
) -> Result<Option<TypeFault>, Memory>
    requires fits { Fits types.old world.now }
    requires known { KnownStandings (length types.old.shapes) sound.now }
    requires literals { let d = specification_view specification.now in SpecificationRead (text_at (package_in world.now) d.file) d }
    ensures grows { Grows types.old types.new }
    ensures fault { let d = specification_view specification.now in (ss : List State) → StandsFor types.old world.now knowledge.is_sound sound.now ss → rights_of types.old ≡ knowledge.rights_of (package_in world.now) ss
        → IfOk result (λ o. o ≡ least (type_faults (free_scope (package_in world.now) (outlines_in world.now) ss d) d)) }
{
    types.count();
    let Some(tokens) = tokens_of(world, specification.file) else {
        return Err(Memory);
    };
    let locals = locals_at(alloc, specification.iota)?;
    let scope = scope_in(world, tokens, &locals, sound, specification.entity, true);
    type_fault(alloc, types, &scope, specification)
}

/// The declared type that an object is.
///
/// # Errors
///
/// Want of memory, also where it is none.
pub fn own_type(types: &Types, world: &World<'_>, number: usize) -> Result<TypeId, Memory>
    requires { Fits types.now world.now }
    ensures known { IfOk result (λ i. i < length types.now.shapes) }
    ensures is { IfOk result (λ i. type_of types.now.shapes i ≡ own_type (package_in world.now) number) }
{
    let _types = types;
    let Some(place) = type_number(world.env, number) else {
        return Err(Memory);
    };
    let Some(named) = named_type(world.named, place as usize) else {
        return Err(Memory);
    };
    Ok(named)
}

/// What is found of an object that is a type.
fn judge_type(
    alloc: Global,
    types: &mut Types,
    world: &World<'_>,
    sound: &[Standing],
    told: &[Standing],
    specification: &Specification<'_>,
    number: usize,
) -> Result<Held, Memory>
    requires fits { Fits types.old world.now }
    requires sound { KnownStandings (length types.old.shapes) sound.now }
    requires told { KnownStandings (length types.old.shapes) told.now }
    requires literals { let d = specification_view specification.now in SpecificationRead (text_at (package_in world.now) d.file) d }
    ensures grows { Grows types.old types.new }
    ensures shows { let d = specification_view specification.now in let p = package_in world.now in let os = outlines_in world.now in
        (ss : List State) → StandsFor types.old world.now knowledge.is_sound sound.now ss → StandsFor types.old world.now knowledge.is_told told.now ss → rights_of types.old ≡ knowledge.rights_of p ss
        → IfOk result (λ h. held_seen types.new h ≡ summary (type_state (own_type p number) (told_scope p os ss d) (free_scope p os ss d) d)) }
    ensures known { IfOk result (KnownHeld (length types.new.shapes)) }
{
    types.count();
    let named = own_type(types, world, number)?;
    let right = right_of(alloc, types, world, told, specification)?;
    let fault = fault_of(alloc, types, world, sound, specification)?;
    Ok(Held {
        right,
        stands: Sort::Type(named),
        fault,
        assigning: None,
    })
}

/// What is found of the object of this number, by what objects stood for before.
///
/// # Errors
///
/// Want of memory.
pub fn judge(
    alloc: Global,
    types: &mut Types,
    world: &World<'_>,
    sound: &[Standing],
    told: &[Standing],
    number: usize,
) -> Result<Held, Memory>
    requires fits { Fits types.old world.now }
    requires sound { KnownStandings (length types.old.shapes) sound.now }
    requires told { KnownStandings (length types.old.shapes) told.now }
    ensures grows { Grows types.old types.new }
    ensures shows { let p = package_in world.now in let os = outlines_in world.now in
        (ss : List State) (o : Outline) → StandsFor types.old world.now knowledge.is_sound sound.now ss → StandsFor types.old world.now knowledge.is_told told.now ss → rights_of types.old ≡ knowledge.rights_of p ss
        → slice_get os number ≡ Some o → IfOk result (λ h. held_seen types.new h ≡ summary (state_by o.specification.entity p os ss number o.specification o.column)) }
    ensures known { IfOk result (KnownHeld (length types.new.shapes)) }
{
    types.count();
    let Some(place) = world.needs.declaring(number) else {
        return Err(Memory);
    };
    let Some(specification) = specification_at(world, place.specification) else {
        return Err(Memory);
    };
    match specification.entity {
        Entity::Type => judge_type(alloc, types, world, sound, told, specification, number),
        _ => judge_value(alloc, types, world, sound, specification, place.column),
    }
}
