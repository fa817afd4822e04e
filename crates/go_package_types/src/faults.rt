//! The fault of the declarations of a package that is reported.
ghost use Rattle.std.specs.Prelude.{◌≡◌, ◌<◌, ℕ, false, List, Option, Some, None, IfOk, length, map, slice_get, unwrap_or};
ghost use Rattle.std.specs.Option.{option_map};
ghost use Rattle.go_tree.specs.Failures.{least, least_from};
ghost use Rattle.go_needs.specs.Tells.{TellsNeeds};
ghost use Rattle.go_types.specs.Tables.{Table, rights_of};
ghost use Rattle.go_types_relations.specs.Extends.{Grows};
ghost use Rattle.go_exprs_rules.specs.Faults as faults;
ghost use Rattle.go_exprs_rules.specs.declared.fault.TypeFault.{TypeFault as Failing};
ghost use Rattle.go_scopes.specs.Views.{failure_of};
ghost use Rattle.go_package_defs.specs.Answer.{all_failures, hidden_failures, mains_from, failures_at};
ghost use Rattle.go_package_defs.specs.Declarations as declarations;
ghost use Rattle.go_package_defs.specs.Knowledge as knowledge;
ghost use Rattle.go_package_defs.specs.Knowledge.{State, free_scope};
ghost use Rattle.go_package_defs.specs.Sources.{text_at};
ghost use Rattle.go_package_defs.specs.Verdicts.{is_blocked, specification_faults, unblocked_faults};
ghost use Rattle.go_declarations.specs.Reads.{SpecificationRead};
ghost use Rattle.go_declarations.specs.Views.{specification_view};
ghost use Rattle.go_package_types.specs.Whole.{failing_as_whole};
ghost use Rattle.go_package_rounds.specs.World.{package_in, outlines_in, specifications_in, Fits, KnownStandings};
ghost use Rattle.go_package_types.specs.Known.{Tells};
ghost use Rattle.go_package_types.specs.Merged as merging;

use crate::specification_fault;
use crate::stands::specification_stands;
use go_base::{Fault, Memory};
use go_declarations::Specification;
use go_exprs_rules::TypeFault;
use go_exprs_types::Standing;
use go_package_rounds::World;
use go_package_rounds::scope::{locals_at, scope_in, tokens_of};
use go_scopes::failure::{earlier, is_earlier};
use go_scopes_lookup::unit::bytes_of;
use go_tokens::tokens::Tokens;
use go_types::Types;
use std::alloc::Global;

/// What is known of the objects: what they stand for where they are free of faults, in which of them a rule fails in their types and
/// expressions, and at which at their own assignments; and which specifications are seen at once to be blocked by that.
#[derive(Clone, Copy)]
pub struct Known<'a> {
    pub sound: &'a [Standing],
    pub faulty: &'a [bool],
    pub assigning: &'a [bool],
    pub blocked: &'a [bool],
}

/// The least of the rules that fail at a specification, where it is blocked or isn't.
fn fault_as(
    alloc: Global,
    types: &mut Types,
    world: &World<'_>,
    known: &Known<'_>,
    specification: &Specification<'_>,
    blocked: bool,
) -> Result<Option<TypeFault>, Memory>
    requires fits { Fits types.old world.now }
    requires known { KnownStandings (length types.old.shapes) known.now.sound.now }
    requires literals { let d = specification_view specification.now in SpecificationRead (text_at (package_in world.now) d.file) d }
    ensures grows { Grows types.old types.new }
    ensures fault { let d = specification_view specification.now in (ss : List State) → Tells types.old world.now known.now ss
        → IfOk result (λ o. o ≡ faults.least (failing_as_whole blocked (free_scope (package_in world.now) (outlines_in world.now) ss d) d)) }
{
    types.count();
    let Some(tokens) = tokens_of(world, specification.file) else {
        return Err(Memory);
    };
    let locals = locals_at(alloc, specification.iota)?;
    let scope = scope_in(
        world,
        tokens,
        &locals,
        known.sound,
        specification.entity,
        true,
    );
    specification_fault(alloc, types, &scope, specification, blocked)
}

/// Whether a fault of a file, by its tokens, is the one to report, where another one may be there.
fn is_first(found: Option<Fault>, tokens: &Tokens, fault: TypeFault) -> bool
    ensures { result ≡ false → merging.merged (option_map failure_of found) (Some (merging.failure_in tokens.now fault)) ≡ option_map failure_of found }
{
    match found {
        None => true,
        Some(found) => is_earlier(fault_in(tokens, fault), found),
    }
}

/// A fault of a file, by its bytes.
fn fault_in(tokens: &Tokens, fault: TypeFault) -> Fault
    ensures { failure_of result ≡ merging.failure_in tokens.now fault }
{
    Fault {
        code: fault.code,
        span: bytes_of(tokens.file(), tokens, fault.first, fault.last),
    }
}

/// Whether the specification of this number is seen at once to be blocked.
fn is_seen(blocked: &[bool], number: usize) -> bool
    ensures { result ≡ unwrap_or (slice_get blocked.now number) false }
{
    blocked.get(number).copied().unwrap_or(false)
}

/// Whether another one's fault blocks the specification of this number. Where that isn't seen at once all that it needs is searched. So
/// it is of a specification whose own rule is told, and then no later one has the first fault; and of those that need one another in a
/// circle. Only ones with several names do that here, since an object that needs itself is a fault of an earlier phase.
fn is_blocked(
    alloc: Global,
    world: &World<'_>,
    known: &Known<'_>,
    number: usize,
) -> Result<bool, Memory>
    ensures { let p = package_in world.now in let ds = specifications_in world.now in (t : Table) (ss : List State) (d : declarations.Specification) → TellsNeeds world.now.needs.now p ds → Tells t world.now known.now ss → slice_get ds number ≡ Some d
        → IfOk result (λ b. b ≡ is_blocked p (outlines_in world.now) ss d) }
{
    if is_seen(known.blocked, number) {
        return Ok(true);
    }
    world
        .needs
        .is_blocked(alloc, number, known.faulty, known.assigning)
}

/// What is to be told of the specification of this number beside a fault that may be there: the least of the rules that fail at it,
/// or nothing, if that changes nothing. Whether another one's fault blocks it is asked where its own rule alone fails, and where that
/// would be the first fault.
fn fault_of(
    alloc: Global,
    types: &mut Types,
    world: &World<'_>,
    known: &Known<'_>,
    number: usize,
    specification: &Specification<'_>,
    tokens: &Tokens,
    found: Option<Fault>,
) -> Result<Option<TypeFault>, Memory>
    requires fits { Fits types.old world.now }
    requires known { KnownStandings (length types.old.shapes) known.now.sound.now }
    requires literals { let d = specification_view specification.now in SpecificationRead (text_at (package_in world.now) d.file) d }
    requires number { slice_get (specifications_in world.now) number ≡ Some (specification_view specification.now) }
    ensures grows { Grows types.old types.new }
    ensures fault { let shown = λ (o : Option Failing). merging.merged (option_map failure_of found) (option_map (merging.failure_in tokens.now) o) in
        (ss : List State) → Tells types.old world.now known.now ss
        → IfOk result (λ o. shown o ≡ shown (faults.least (specification_faults (package_in world.now) (outlines_in world.now) ss (specification_view specification.now)))) }
{
    types.count();
    let Some(fault) = fault_as(alloc, types, world, known, specification, false)? else {
        return Ok(None);
    };
    let inner = fault_as(alloc, types, world, known, specification, true)?;
    if inner.is_some() {
        return Ok(inner);
    }
    if !is_first(found, tokens, fault) {
        return Ok(None);
    }
    if is_blocked(alloc, world, known, number)? {
        Ok(None)
    } else {
        Ok(Some(fault))
    }
}

/// The earlier of a fault that may be there and one of a file, by its tokens.
fn merged(found: Option<Fault>, tokens: &Tokens, fault: Option<TypeFault>) -> Option<Fault>
    ensures { option_map failure_of result ≡ merging.merged (option_map failure_of found) (option_map (merging.failure_in tokens.now) fault) }
{
    match fault {
        None => found,
        Some(fault) => earlier(
            found,
            Fault {
                code: fault.code,
                span: bytes_of(tokens.file(), tokens, fault.first, fault.last),
            },
        ),
    }
}

/// The least of a fault that may be there and those of the specification of this number.
fn note_fault(
    alloc: Global,
    types: &mut Types,
    world: &World<'_>,
    known: &Known<'_>,
    number: usize,
    found: Option<Fault>,
) -> Result<Option<Fault>, Memory>
    requires fits { Fits types.old world.now }
    requires known { KnownStandings (length types.old.shapes) known.now.sound.now }
    ensures grows { Grows types.old types.new }
    ensures fault { let p = package_in world.now in let os = outlines_in world.now in (ss : List State) (d : declarations.Specification) → Tells types.old world.now known.now ss → slice_get (specifications_in world.now) number ≡ Some d
        → IfOk result (λ o. option_map failure_of o ≡ least_from (option_map failure_of found) (failures_at p d.file (specification_faults p os ss d))) }
{
    types.count();
    let Some(specification) = world.specifications.get(number) else {
        return Err(Memory);
    };
    let Some(tokens) = tokens_of(world, specification.file) else {
        return Err(Memory);
    };
    let fault = fault_of(
        alloc,
        types,
        world,
        known,
        number,
        specification,
        tokens,
        found,
    )?;
    if specification_stands(tokens, specification) {
        Ok(merged(found, tokens, fault))
    } else {
        Err(Memory)
    }
}

/// The least fault of the specifications of a package.
pub fn specifications_fault(
    alloc: Global,
    types: &mut Types,
    world: &World<'_>,
    known: &Known<'_>,
) -> Result<Option<Fault>, Memory>
    requires fits { Fits types.old world.now }
    requires known { KnownStandings (length types.old.shapes) known.now.sound.now }
    ensures grows { Grows types.old types.new }
    ensures fault { let p = package_in world.now in let os = outlines_in world.now in (ss : List State) → Tells types.old world.now known.now ss
        → IfOk result (λ o. least_from (option_map failure_of o) (mains_from p os ss 0 p.uses.package_level) ≡ least (all_failures p os ss (specifications_in world.now))) }
{
    types.count();
    let mut found = None;
    for number in 0..world.specifications.len() {
        found = note_fault(alloc, types, world, known, number, found)?;
    }
    Ok(found)
}

/// The least of a fault that may be there and those of the specification of this number, whether it is blocked or isn't.
fn note_hidden(
    alloc: Global,
    types: &mut Types,
    world: &World<'_>,
    known: &Known<'_>,
    number: usize,
    found: Option<Fault>,
) -> Result<Option<Fault>, Memory>
    requires fits { Fits types.old world.now }
    requires known { KnownStandings (length types.old.shapes) known.now.sound.now }
    ensures grows { Grows types.old types.new }
    ensures fault { let p = package_in world.now in let os = outlines_in world.now in (ss : List State) (d : declarations.Specification) → Tells types.old world.now known.now ss → slice_get (specifications_in world.now) number ≡ Some d
        → IfOk result (λ o. option_map failure_of o ≡ least_from (option_map failure_of found) (failures_at p d.file (unblocked_faults p os ss d))) }
{
    types.count();
    let Some(specification) = world.specifications.get(number) else {
        return Err(Memory);
    };
    let fault = fault_as(alloc, types, world, known, specification, false)?;
    let Some(tokens) = tokens_of(world, specification.file) else {
        return Err(Memory);
    };
    if specification_stands(tokens, specification) {
        Ok(merged(found, tokens, fault))
    } else {
        Err(Memory)
    }
}

/// The least fault of the specifications of a package, whether they are blocked or aren't.
pub fn hidden_fault(
    alloc: Global,
    types: &mut Types,
    world: &World<'_>,
    known: &Known<'_>,
) -> Result<Option<Fault>, Memory>
    requires fits { Fits types.old world.now }
    requires known { KnownStandings (length types.old.shapes) known.now.sound.now }
    ensures grows { Grows types.old types.new }
    ensures fault { let p = package_in world.now in let os = outlines_in world.now in (ss : List State) → Tells types.old world.now known.now ss
        → IfOk result (λ o. option_map failure_of o ≡ least (hidden_failures p os ss (specifications_in world.now))) }
{
    types.count();
    let mut found = None;
    for number in 0..world.specifications.len() {
        found = note_hidden(alloc, types, world, known, number, found)?;
    }
    Ok(found)
}
