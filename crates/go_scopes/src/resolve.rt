//! The meaning of the names of a package.

ghost use Rattle.std.specs.Prelude.{◌≡◌, ◌≤◌, None, Some, IfOk, length, map};
ghost use Rattle.std.specs.Option.{option_map};
ghost use Rattle.go_base.specs.Gives.{Meets};
ghost use Rattle.go_scopes_events.specs.Inside.{LocalsInside, nowhere};
ghost use Rattle.go_scopes_events.specs.Orders.{AreInOrder};
ghost use Rattle.go_scopes_events.specs.Scopes.{IsOrderly, AreOrderly};
ghost use Rattle.go_scopes_lookup.specs.Tables.{AreCounted, AreInside};
ghost use Rattle.go_tree.specs.Declarations.{found};
ghost use Rattle.go_tree.specs.Failures.{least, least_from};
ghost use Rattle.go_tree.specs.Faults.{lookup_faults, unused_faults, placed_faults, name_faults_by, reported};
ghost use Rattle.go_tree.specs.Uses.{uses};
ghost use Rattle.go_scopes_lookup.specs.Views.{unit_view, units_view, found_view, asked_view};
ghost use Rattle.go_scopes.specs.Resolve.{unit_of, units_of, refusal_of};
ghost use Rattle.go_scopes.specs.Views.{failure_of};

use crate::branches::{branches, limit};
use crate::clauses::clause_faults;
use crate::constants::hidden_lists;
use crate::cycles::cycles;
use crate::duplicates::duplicates;
use crate::error::ResolveError;
use crate::lookups::{LookupRule, note_lookups};
use crate::redeclared::redeclared;
use crate::unused::{unused_imports, unused_variables};
use go_base::{Fault, Memory};
use go_scopes_events::laws::{
    files_are_orderly, locals_stand_inside_functions, names_are_in_order,
};
use go_scopes_events::walk::events;
use go_scopes_lookup::asked::Asked;
use go_scopes_lookup::declared::uses_of;
use go_scopes_lookup::found::{Found, all_found, new_among};
use go_scopes_lookup::look_up::looked_up;
use go_scopes_lookup::meaning::entries;
use go_scopes_lookup::unit::Unit;
use go_tree::file::File;
use go_tree::uses::Uses;
use std::alloc::{AllocError, Global};

/// What the names of a package mean. The files are numbered from 0 by their places.
///
/// # Errors
///
/// The fault that is reported, exactly where a rule on clauses or names fails; or want of memory.
pub fn resolve(alloc: Global, files: &[File]) -> Result<Uses, ResolveError>
    requires { length files.now ≤ 256 }
    ensures { Meets refusal_of result (λ u. (reported (units_of files.now) ≡ None) × (u ≡ uses (units_of files.now))) (λ fault. reported (units_of files.now) ≡ Some (failure_of fault)) }
{
    let units = units_of(alloc, files)?;
    resolve_units(alloc, &units)
}

/// A file as the rules see it.
fn unit_of<'a>(alloc: Global, file: &'a File) -> Result<Unit<'a>, AllocError>
    ensures unit { IfOk result (λ u. unit_view u ≡ unit_of file.now) }
    ensures orderly { IfOk result (λ u. IsOrderly u.events.items) }
    ensures counted { IfOk result (λ u. AreInOrder 0 (length u.tokens.now.tokens) u.events.items) }
    ensures inside { IfOk result (λ u. LocalsInside nowhere u.events.items) }
{
    files_are_orderly();
    names_are_in_order();
    locals_stand_inside_functions();
    let root = file.root();
    Ok(Unit {
        tokens: file.tokens(),
        events: events(alloc, root)?,
    })
}

/// The files as the rules see them.
pub fn units_of<'a>(alloc: Global, files: &'a [File]) -> Result<Vec<Unit<'a>>, AllocError>
    ensures units { IfOk result (λ v. units_view v.items ≡ units_of files.now) }
    ensures orderly { IfOk result (λ v. AreOrderly (units_view v.items)) }
    ensures counted { IfOk result (λ v. AreCounted (units_view v.items)) }
    ensures inside { IfOk result (λ v. AreInside (units_view v.items)) }
{
    let mut units = Vec::new(alloc);
    for file in files {
        units.push(unit_of(alloc, file)?)?;
    }
    Ok(units)
}

/// The same of files whose names are told already, as `units_of` does.
///
/// # Errors
///
/// Those of `resolve`.
pub fn resolve_units(alloc: Global, units: &[Unit<'_>]) -> Result<Uses, ResolveError>
    requires few { length units.now ≤ 256 }
    requires orderly { AreOrderly (units_view units.now) }
    requires counted { AreCounted (units_view units.now) }
    requires inside { AreInside (units_view units.now) }
    ensures { Meets refusal_of result (λ u. (reported (units_view units.now) ≡ None) × (u ≡ uses (units_view units.now))) (λ fault. reported (units_view units.now) ≡ Some (failure_of fault)) }
{
    let all = all_found(alloc, units)?;
    if let Some(fault) = clause_faults(alloc, &all, units)? {
        return Err(ResolveError::Fault(fault));
    }
    let declared = new_among(alloc, &all)?;
    let entries = entries(alloc, units, &declared)?;
    let looked_up = looked_up(alloc, units, &entries)?;
    if let Some(fault) = name_faults(alloc, units, &all, &declared, &looked_up.asked)? {
        return Err(ResolveError::Fault(fault));
    }
    Ok(uses_of(alloc, looked_up.objects, &declared)?)
}

/// The rules on names that are looked up.
fn lookup_faults(found: Option<Fault>, asked: &[Asked<'_>]) -> Option<Fault>
    ensures { option_map failure_of result ≡ least_from (option_map failure_of found) (lookup_faults (map asked_view asked.now)) }
{
    let undeclared = note_lookups(LookupRule::Undeclared, found, asked);
    let named = note_lookups(LookupRule::OutsideName, undeclared, asked);
    let selected = note_lookups(LookupRule::OutsideMember, named, asked);
    let called = note_lookups(LookupRule::NotCalled, selected, asked);
    note_lookups(LookupRule::Initialiser, called, asked)
}

/// The rules on what is not used.
fn unused_faults(
    alloc: Global,
    found: Option<Fault>,
    units: &[Unit<'_>],
    declared: &[Found<'_>],
    asked: &[Asked<'_>],
) -> Result<Option<Fault>, Memory>
    requires { length units.now ≤ 256 }
    ensures { IfOk result (λ f. option_map failure_of f ≡ least_from (option_map failure_of found) (unused_faults (units_view units.now) (map found_view declared.now) (map asked_view asked.now))) }
{
    let variables = unused_variables(alloc, found, asked, declared)?;
    Ok(unused_imports(alloc, variables, asked, units)?)
}

/// The rules on what stands where it may not, twice, or too often, and on lists that are repeated.
fn placed_faults(
    alloc: Global,
    found: Option<Fault>,
    units: &[Unit<'_>],
) -> Result<Option<Fault>, Memory>
    requires { length units.now ≤ 256 }
    ensures { IfOk result (λ f. option_map failure_of f ≡ least_from (option_map failure_of found) (placed_faults (units_view units.now))) }
{
    let placed = branches(alloc, found, units)?;
    let twice = duplicates(alloc, placed, units)?;
    let limited = limit(twice, units);
    Ok(hidden_lists(alloc, limited, units)?)
}

/// The least fault of the rules on names. The declarations are `declared`, and `all` has the names before each `:=` too.
fn name_faults<'a>(
    alloc: Global,
    units: &[Unit<'_>],
    all: &[Found<'_>],
    declared: &[Found<'a>],
    asked: &[Asked<'a>],
) -> Result<Option<Fault>, Memory>
    requires few { length units.now ≤ 256 }
    requires all { map found_view all.now ≡ found (units_view units.now) }
    ensures { IfOk result (λ f. option_map failure_of f ≡ least (name_faults_by (units_view units.now) (map found_view declared.now) (map asked_view asked.now))) }
{
    let repeated = redeclared(alloc, None, units, declared, all)?;
    let looked_up = lookup_faults(repeated, asked);
    let unused = unused_faults(alloc, looked_up, units, declared, asked)?;
    let placed = placed_faults(alloc, unused, units)?;
    Ok(cycles(alloc, placed, asked, declared)?)
}
