//! Rules on names that are declared more than once.

ghost use Rattle.std.specs.Prelude.{◌≡◌, ◌≤◌, ◌&&◌, not, nat_eq, [], List, IfOk, length, map};
ghost use Rattle.std.specs.Option.{option_map};
ghost use Rattle.go_base.specs.declared.fault.FaultCode.{FaultCode};
ghost use Rattle.go_tree.specs.Declarations as rules;
ghost use Rattle.go_tree.specs.Failures.{of_files};
ghost use Rattle.go_tree.specs.Redeclared.{has_clash, second_declarations, has_import, hidden_imports, second_imports, is_by_define, has_new, none_new, redeclared};
ghost use Rattle.go_scopes_lookup.specs.Views.{units_view, found_view};
ghost use Rattle.go_scopes_lookup.specs.Keys.{KnowsNames, KnowsStatements};
ghost use Rattle.go_scopes.specs.Noted.{noted};
ghost use Rattle.go_scopes.specs.Views.{failure_of};

use crate::failure::note;
use crate::file_rule::{FileRule, note_files};
use go_base::{Fault, FaultCode, Memory};
use go_scopes_lookup::found::Found;
use go_scopes_lookup::keys::{
    Key, Statement, add_name, add_statement, is_parameter, key_of, statement_of,
};
use go_scopes_lookup::kinds::{is_by_define, is_package};
use go_scopes_lookup::meaning::imports_fmt;
use go_scopes_lookup::unit::{Unit, bytes_at, is_fmt, is_fmt_path};
use go_tree::event::Event;
use indexmap::{IndexMap, IndexSet};
use std::alloc::Global;

/// Whether the block has the name already.
pub fn has_clash(d: &Found<'_>, names: &IndexMap<Key<'_>, bool>) -> bool
    ensures { (before : List rules.Found) → KnowsNames names.now before → result ≡ has_clash (found_view d.now) before }
{
    match names.get(&key_of(d)).copied() {
        None => false,
        Some(other) => other || !is_parameter(d.declaration.entity),
    }
}

/// No name is declared twice in a block (Go specification: Declarations and scope).
fn second_declarations(
    alloc: Global,
    found: Option<Fault>,
    all: &[Found<'_>],
) -> Result<Option<Fault>, Memory>
    ensures { IfOk result (λ f. option_map failure_of f ≡ noted (option_map failure_of found) FaultCode.Redeclared (second_declarations [] (map found_view all.now))) }
{
    let mut found = found;
    let mut names = IndexMap::new(alloc);
    for d in all {
        found = note(
            found,
            has_clash(d, &names),
            FaultCode::Redeclared,
            d.place(),
        );
        add_name(&mut names, d)?;
    }
    Ok(found)
}

/// Whether a file imports `fmt`.
pub fn has_import(alloc: Global, units: &[Unit<'_>]) -> Result<bool, Memory>
    ensures { IfOk result (λ b. b ≡ has_import (units_view units.now)) }
{
    for unit in units {
        if imports_fmt(alloc, unit)? {
            return Ok(true);
        }
    }
    Ok(false)
}

/// No name stands in a file's block and in that of the package.
fn hidden_imports(found: Option<Fault>, imported: bool, all: &[Found<'_>]) -> Option<Fault>
    ensures { option_map failure_of result ≡ noted (option_map failure_of found) FaultCode.Redeclared (hidden_imports imported (map found_view all.now)) }
{
    let mut found = found;
    for d in all {
        let hides = imported && is_package(d.declaration.block) && is_fmt(d.name());
        found = note(found, hides, FaultCode::Redeclared, d.place());
    }
    found
}

/// A file imports `fmt` once.
struct SecondImports;

impl FileRule for SecondImports {
    ghost use Rattle.std.specs.Prelude.{false};
    ghost use Rattle.go_base.specs.declared.fault.FaultCode.TheVariants as code;
    ghost use Rattle.go_tree.specs.Redeclared.{second_imports};

    ghost code = { code.Redeclared };

    ghost places = { λ _. second_imports false };

    fn note_in(
        &self,
        alloc: Global,
        found: Option<Fault>,
        file: u32,
        unit: &Unit<'_>,
    ) -> Result<Option<Fault>, Memory> {
        let mut found = found;
        let mut imported = false;
        for event in &unit.events {
            if let Event::Import { path } = event {
                let is_fmt = is_fmt_path(alloc, unit.tokens, *path)?;
                let place = bytes_at(file, unit.tokens, *path);
                found = note(found, imported && is_fmt, FaultCode::Redeclared, place);
                imported = imported || is_fmt;
            }
        }
        Ok(found)
    }
}

/// The statements that declare some of the declarations by `:=`.
fn statements(alloc: Global, declared: &[Found<'_>]) -> Result<IndexSet<Statement>, Memory>
    ensures { IfOk result (λ s. KnowsStatements s (map found_view declared.now)) }
{
    let mut statements = IndexSet::new(alloc);
    for d in declared {
        add_statement(&mut statements, d)?;
    }
    Ok(statements)
}

/// Whether the `:=` declares a name.
fn has_new(d: &Found<'_>, statements: &IndexSet<Statement>) -> bool
    ensures { (declared : List rules.Found) → KnowsStatements statements.now declared → result ≡ has_new (found_view d.now) declared }
{
    statements.contains(&statement_of(d))
}

/// Whether it is the first name before a `:=` that declares none.
fn lacks_new(d: &Found<'_>, statements: &IndexSet<Statement>) -> bool
    ensures { (declared : List rules.Found) → KnowsStatements statements.now declared → result ≡ (is_by_define d.now.declaration.now.manner && nat_eq d.now.declaration.now.column 0 && not (has_new (found_view d.now) declared)) }
{
    is_by_define(d.declaration.manner) && d.declaration.column == 0 && !has_new(d, statements)
}

/// One name at least before `:=` is new (Go specification: Short variable declarations). The declarations are `declared`, and
/// `all` has the names before each `:=` too.
fn none_new(
    alloc: Global,
    found: Option<Fault>,
    declared: &[Found<'_>],
    all: &[Found<'_>],
) -> Result<Option<Fault>, Memory>
    ensures { IfOk result (λ f. option_map failure_of f ≡ noted (option_map failure_of found) FaultCode.Redeclared (none_new (map found_view declared.now) (map found_view all.now))) }
{
    let statements = statements(alloc, declared)?;
    let mut found = found;
    let mut all = all;
    while let [d, rest @ ..] = all {
        let fails = lacks_new(d, &statements);
        found = note(found, fails, FaultCode::Redeclared, d.place());
        all = rest;
    }
    Ok(found)
}

/// No name is declared once more in its block, and each `:=` declares one. The declarations are `declared`, and `all` has the
/// names before each `:=` too.
pub fn redeclared(
    alloc: Global,
    found: Option<Fault>,
    units: &[Unit<'_>],
    declared: &[Found<'_>],
    all: &[Found<'_>],
) -> Result<Option<Fault>, Memory>
    requires few { length units.now ≤ 256 }
    requires all { map found_view all.now ≡ rules.found (units_view units.now) }
    ensures { IfOk result (λ f. option_map failure_of f ≡ noted (option_map failure_of found) FaultCode.Redeclared (redeclared (units_view units.now) (map found_view declared.now))) }
{
    let seconds = second_declarations(alloc, found, declared)?;
    let hidden = hidden_imports(seconds, has_import(alloc, units)?, declared);
    let imported = note_files(alloc, &SecondImports, hidden, units)?;
    Ok(none_new(alloc, imported, declared, all)?)
}
