//! The function `main` of the package `main`.
ghost use Rattle.std.specs.Prelude.{◌≡◌, ℕ, true, suc, List, codes, IfOk, length, map};
ghost use Rattle.go_base.specs.declared.fault.FaultCode.TheVariants as code;
ghost use Rattle.std.specs.Option.{option_map};
ghost use Rattle.go_tokens.specs.Spellings.{same_text};
ghost use Rattle.go_tree.specs.Failures.{least_from};
ghost use Rattle.go_exprs_rules.specs.Faults.{fault_at};
ghost use Rattle.go_exprs_rules.specs.Scopes.{at_once};
ghost use Rattle.go_scopes.specs.Views.{failure_of};
ghost use Rattle.go_package_defs.specs.Answer.{is_main_package, mains_from, main_faults, failures_at};
ghost use Rattle.go_package_defs.specs.Knowledge as knowledge;
ghost use Rattle.go_package_defs.specs.Knowledge.{State, passes, state_of};
ghost use Rattle.go_package_defs.specs.Sources.{text_at};
ghost use Rattle.go_needs.specs.Passing.{ArePassing};
ghost use Rattle.go_package_rounds.specs.Held.{KnownHeld, AllHeld, held_seen, all_seen, summary};
ghost use Rattle.go_package_rounds.specs.World.{package_in, outlines_in};

use go_base::{Fault, FaultCode, Memory};
use go_declarations::procedure::is_procedure;
use go_needs::Passing;
use go_package_rounds::scope::tokens_of;
use go_package_rounds::{Held, World};
use go_scopes::failure::earlier;
use go_scopes_lookup::unit::{bytes_of, same, word};
use go_tree::object::Declared;
use go_types::Types;

/// Whether the token of this number of a file is `main`.
fn is_word_main(world: &World<'_>, file: usize, token: u32) -> Result<bool, Memory>
    ensures { IfOk result (λ b. b ≡ same_text (text_at (package_in world.now) file token) (codes "main")) }
{
    let Some(tokens) = tokens_of(world, file) else {
        return Err(Memory);
    };
    Ok(same(word(tokens, token), b"main"))
}

/// Whether the package's name is `main` (Go specification, "Package clause").
pub fn is_main_package(world: &World<'_>) -> Result<bool, Memory>
    ensures { IfOk result (λ b. b ≡ is_main_package (package_in world.now)) }
{
    if world.files.is_empty() {
        return Ok(false);
    }
    is_word_main(world, 0, 1)
}

/// The earlier of a fault that may be there and one of operands at a token of a file.
fn note_token(
    world: &World<'_>,
    found: Option<Fault>,
    file: usize,
    token: u32,
) -> Result<Option<Fault>, Memory>
    ensures { IfOk result (λ o. option_map failure_of o ≡ least_from (option_map failure_of found) (failures_at (package_in world.now) file (fault_at code.Operands token (suc token)))) }
{
    let Some(tokens) = tokens_of(world, file) else {
        return Err(Memory);
    };
    let Some(behind) = token.checked_add(1) else {
        return Err(Memory);
    };
    let span = bytes_of(tokens.file(), tokens, token, behind);
    Ok(earlier(
        found,
        Fault {
            code: FaultCode::Operands,
            span,
        },
    ))
}

/// The least of a fault that may be there and that of an object, if it is the function `main` with parameters or results.
fn note_main(
    types: &Types,
    world: &World<'_>,
    found: Option<Fault>,
    object: Declared,
    known: &Held,
    passing: Passing,
) -> Result<Option<Fault>, Memory>
    requires { KnownHeld (length types.now.shapes) known.now }
    ensures { let p = package_in world.now in let os = outlines_in world.now in (ss : List State) (n : ℕ) → is_main_package p ≡ true → passing.at_once ≡ passes knowledge.is_sound os ss at_once n → held_seen types.now known.now ≡ summary (state_of ss n)
        → IfOk result (λ o. option_map failure_of o ≡ least_from (option_map failure_of found) (failures_at p object.file (main_faults p os ss n object))) }
{
    let file = object.file as usize;
    if passing.at_once
        && !is_procedure(types, object.entity, &known.stands)
        && is_word_main(world, file, object.name)?
    {
        note_token(world, found, file, object.name)
    } else {
        Ok(found)
    }
}

/// The least of a fault that may be there and those of the function `main` of the package `main`, which has no parameters and no results
/// (Go specification, "Program execution").
///
/// # Errors
///
/// Want of memory.
pub fn note_mains(
    types: &Types,
    world: &World<'_>,
    found: Option<Fault>,
    all: &[Held],
    passing: &[Passing],
) -> Result<Option<Fault>, Memory>
    requires { AllHeld (length types.now.shapes) all.now }
    ensures { let p = package_in world.now in let os = outlines_in world.now in (ss : List State) → all_seen types.now all.now ≡ map summary ss → ArePassing knowledge.is_sound os ss passing.now
        → IfOk result (λ o. option_map failure_of o ≡ least_from (option_map failure_of found) (mains_from p os ss 0 p.uses.package_level)) }
{
    if !is_main_package(world)? {
        return Ok(found);
    }
    let objects = world.uses.package_objects();
    let mut fault = found;
    for number in 0..objects.len() {
        let (Some(known), Some(passes)) = (all.get(number), passing.get(number)) else {
            return Err(Memory);
        };
        fault = note_main(types, world, fault, objects[number], known, *passes)?;
    }
    Ok(fault)
}
