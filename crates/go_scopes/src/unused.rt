//! Rules on local variables and imports that are not used.

ghost use Rattle.std.specs.Prelude.{◌≡◌, ◌≤◌, ◌&&◌, IfOk, OnOk, List, not, length, map};
ghost use Rattle.std.specs.Option.{option_map};
ghost use Rattle.go_base.specs.declared.fault.FaultCode.{FaultCode};
ghost use Rattle.go_tree.specs.Lookups.{is_counted, is_assigned, is_used, unused_variables, unused_imports};
ghost use Rattle.go_tree.specs.Lookups as rules;
ghost use Rattle.go_scopes_lookup.specs.Views.{units_view, found_view, asked_view};
ghost use Rattle.go_scopes.specs.Noted.{noted};
ghost use Rattle.go_scopes.specs.Used.{used_spot, AddsUse, AreUsed, AddsImport, UseImports};
ghost use Rattle.go_scopes.specs.Views.{failure_of};

use crate::failure::note;
use crate::file_rule::{FileRule, note_files};
use crate::lookups::{is_import, object_asked};
use go_base::{Fault, FaultCode, Memory};
use go_scopes_lookup::asked::Asked;
use go_scopes_lookup::found::Found;
use go_scopes_lookup::kinds::is_package;
use go_scopes_lookup::meaning::Meaning;
use go_scopes_lookup::unit::{Unit, bytes_at};
use go_tree::context::{Block, Entity, Role};
use go_tree::event::Event;
use std::alloc::{AllocError, Global};
use std::collections::HashSet;

/// Whether it is a local variable.
fn is_counted(entity: Entity, block: Block) -> bool
    ensures { result ≡ is_counted entity block }
{
    match entity {
        Entity::Variable => !is_package(block),
        Entity::Constant | Entity::Type | Entity::Parameter | Entity::Function => false,
    }
}

/// Whether it is a whole left side of an assignment.
fn is_assigned(role: Role) -> bool
    ensures { result ≡ is_assigned role }
{
    match role {
        Role::Assigned => true,
        _ => false,
    }
}

/// Where the variable is declared that the name uses, other than by an assignment to it: the number of the file, and that of
/// the token.
fn used_spot(a: &Asked<'_>) -> Option<(u32, u32)>
    ensures { result ≡ used_spot (asked_view a.now) }
{
    if is_assigned(a.lookup.role.get()) {
        return None;
    }
    let d = a.meaning?.entry.source?;
    Some((d.file, d.declaration.name))
}

/// Notes where the variable is declared that the name uses.
fn note_use(spots: &mut HashSet<(u32, u32)>, a: &Asked<'_>) -> Result<(), AllocError>
    ensures { OnOk result (AddsUse spots.old spots.new (asked_view a.now)) }
{
    if let Some(spot) = used_spot(a) {
        spots.insert(spot)?;
    }
    Ok(())
}

/// Where the variables are declared that some names use.
fn used_spots(alloc: Global, lookups: &[Asked<'_>]) -> Result<HashSet<(u32, u32)>, AllocError>
    ensures { IfOk result (λ spots. AreUsed spots (map asked_view lookups.now)) }
{
    let mut spots = HashSet::new(alloc);
    for a in lookups {
        note_use(&mut spots, a)?;
    }
    Ok(spots)
}

/// Whether it is a local variable that isn't used; `spots` has those that are.
fn is_unused(d: &Found<'_>, spots: &HashSet<(u32, u32)>) -> bool
    ensures { (asks : List rules.Asked) → AreUsed spots.now asks → result ≡ (is_counted d.now.declaration.now.entity d.now.declaration.now.block && not (is_used (found_view d.now) asks)) }
{
    is_counted(d.declaration.entity, d.declaration.block)
        && !spots.contains(&(d.file, d.declaration.name))
}

/// Each local variable is used (Go specification: Variable declarations).
pub fn unused_variables(
    alloc: Global,
    found: Option<Fault>,
    lookups: &[Asked<'_>],
    declared: &[Found<'_>],
) -> Result<Option<Fault>, AllocError>
    ensures { IfOk result (λ f. option_map failure_of f ≡ noted (option_map failure_of found) FaultCode.UnusedVariable (unused_variables (map asked_view lookups.now) (map found_view declared.now))) }
{
    let spots = used_spots(alloc, lookups)?;
    let mut found = found;
    for d in declared {
        let fails = is_unused(d, &spots);
        found = note(found, fails, FaultCode::UnusedVariable, d.place());
    }
    Ok(found)
}

/// Notes the file whose import the name means.
fn note_import(files: &mut HashSet<u32>, a: &Asked<'_>) -> Result<(), AllocError>
    ensures { OnOk result (AddsImport files.old files.new (asked_view a.now)) }
{
    if is_import(object_asked(a)) {
        files.insert(a.file)?;
    }
    Ok(())
}

/// The files that use their imports.
fn files_with_uses(alloc: Global, lookups: &[Asked<'_>]) -> Result<HashSet<u32>, AllocError>
    ensures { IfOk result (λ files. UseImports files (map asked_view lookups.now)) }
{
    let mut files = HashSet::new(alloc);
    for a in lookups {
        note_import(&mut files, a)?;
    }
    Ok(files)
}

/// Each import is used.
#[derive(Drop)]
struct UsedImports {
    /// The files that use theirs.
    files: HashSet<u32>,
}

impl FileRule for UsedImports {
    ghost use Rattle.std.specs.Prelude.{nat_eq};
    ghost use Rattle.std.specs.HashSet as set;
    ghost use Rattle.go_base.specs.declared.fault.FaultCode.TheVariants as code;
    ghost use Rattle.go_tree.specs.Lookups.{imports_unless};

    ghost code = { code.UnusedImport };

    ghost places = { λ rule n. imports_unless (set.contains nat_eq rule.files n) n };

    fn note_in(
        &self,
        _alloc: Global,
        found: Option<Fault>,
        file: u32,
        unit: &Unit<'_>,
    ) -> Result<Option<Fault>, Memory> {
        let used = self.files.contains(&file);
        let mut found = found;
        for event in &unit.events {
            if let Event::Import { path } = event {
                let place = bytes_at(file, unit.tokens, *path);
                found = note(found, !used, FaultCode::UnusedImport, place);
            }
        }
        Ok(found)
    }
}

/// Each import is used (Go specification: Import declarations).
pub fn unused_imports(
    alloc: Global,
    found: Option<Fault>,
    lookups: &[Asked<'_>],
    units: &[Unit<'_>],
) -> Result<Option<Fault>, Memory>
    requires { length units.now ≤ 256 }
    ensures { IfOk result (λ f. option_map failure_of f ≡ noted (option_map failure_of found) FaultCode.UnusedImport (unused_imports (map asked_view lookups.now) (units_view units.now))) }
{
    let rule = UsedImports {
        files: files_with_uses(alloc, lookups)?,
    };
    Ok(note_files(alloc, &rule, found, units)?)
}
