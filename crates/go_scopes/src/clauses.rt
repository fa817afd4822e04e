//! Rules on clauses: package names, imports, and declarations outside the profile.

ghost use Rattle.std.specs.Prelude.{◌≡◌, ◌≤◌, ◌+◌, suc, IfOk, None, length, map, codes};
ghost use Rattle.std.specs.Option.{option_map};
ghost use Rattle.go_base.specs.declared.fault.FaultCode.{FaultCode};
ghost use Rattle.go_tree.specs.Units.{bytes_at};
ghost use Rattle.go_tree.specs.Failures.{least};
ghost use Rattle.go_tree.specs.Faults.{clause_faults_by};
ghost use Rattle.go_tree.specs.Clauses.{first_name, other_names, package_names, imports, is_outside, outside_declarations, declares, is_spelled, is_read_byte, missing_bodies};
ghost use Rattle.go_scopes_lookup.specs.Views.{place_of, unit_view, units_view, found_view};
ghost use Rattle.go_scopes.specs.Noted.{noted};
ghost use Rattle.go_scopes.specs.Views.{failure_of};

use crate::failure::note;
use crate::file_rule::{FileRule, note_files};
use go_base::{Fault, FaultCode, Memory, Span};
use go_scopes_lookup::found::Found;
use go_scopes_lookup::kinds::is_package;
use go_scopes_lookup::unit::{Unit, bytes_at, is_blank, is_fmt_path, same, word};
use go_tokens::tokens::Tokens;
use go_tree::context::{Block, Entity};
use go_tree::event::Event;
use std::alloc::Global;

/// The name of the first file's package.
fn first_name<'a>(units: &[Unit<'a>]) -> &'a [u8]
    ensures { result.now ≡ first_name (units_view units.now) }
{
    match units.first() {
        None => &[],
        Some(unit) => word(unit.tokens, 1),
    }
}

/// The names of the files' packages are this one, and it isn't blank.
fn other_names(found: Option<Fault>, name: &[u8], units: &[Unit<'_>]) -> Option<Fault>
    requires { length units.now ≤ 256 }
    ensures { option_map failure_of result ≡ noted (option_map failure_of found) FaultCode.PackageName (other_names name.now 0 (units_view units.now)) }
{
    let mut found = found;
    for (file, unit) in units.iter().enumerate() {
        let own = word(unit.tokens, 1);
        let fails = is_blank(own) || !same(own, name);
        let place = bytes_at(file as u32, unit.tokens, 1);
        found = note(found, fails, FaultCode::PackageName, place);
    }
    found
}

/// The package's name isn't blank, and all files say the same (Go specification: Package clause).
fn package_names(found: Option<Fault>, units: &[Unit<'_>]) -> Option<Fault>
    requires { length units.now ≤ 256 }
    ensures { option_map failure_of result ≡ noted (option_map failure_of found) FaultCode.PackageName (package_names (units_view units.now)) }
{
    other_names(found, first_name(units), units)
}

/// No path is imported but that of `fmt`.
struct OtherImports;

impl FileRule for OtherImports {
    ghost use Rattle.go_base.specs.declared.fault.FaultCode.TheVariants as code;
    ghost use Rattle.go_tree.specs.Clauses.{other_imports};

    ghost code = { code.Outside };

    ghost places = { λ _. other_imports };

    fn note_in(
        &self,
        alloc: Global,
        found: Option<Fault>,
        file: u32,
        unit: &Unit<'_>,
    ) -> Result<Option<Fault>, Memory> {
        let mut found = found;
        for event in &unit.events {
            if let Event::Import { path } = event {
                let fails = !is_fmt_path(alloc, unit.tokens, *path)?;
                let place = bytes_at(file, unit.tokens, *path);
                found = note(found, fails, FaultCode::Outside, place);
            }
        }
        Ok(found)
    }
}

/// No path is imported but that of `fmt` (Go specification: Import declarations).
fn imports(alloc: Global, found: Option<Fault>, units: &[Unit<'_>]) -> Result<Option<Fault>, Memory>
    requires { length units.now ≤ 256 }
    ensures { IfOk result (λ f. option_map failure_of f ≡ noted (option_map failure_of found) FaultCode.Outside (imports (units_view units.now))) }
{
    note_files(alloc, &OtherImports, found, units)
}

/// Whether it is a name `init` of the package, or a function `_`.
fn is_outside(entity: Entity, block: Block, name: &[u8]) -> bool
    ensures { result ≡ is_outside entity block name.now }
{
    let is_init = is_package(block) && same(name, b"init");
    match entity {
        Entity::Function => is_blank(name) || is_init,
        Entity::Constant | Entity::Type | Entity::Variable | Entity::Parameter => is_init,
    }
}

/// No name of the package is `init`, and no function is blank.
fn outside_declarations(found: Option<Fault>, all: &[Found<'_>]) -> Option<Fault>
    ensures { option_map failure_of result ≡ noted (option_map failure_of found) FaultCode.Outside (outside_declarations (map found_view all.now)) }
{
    let mut found = found;
    for d in all {
        let fails = is_outside(d.declaration.entity, d.declaration.block, d.name());
        found = note(found, fails, FaultCode::Outside, d.place());
    }
    found
}

/// Whether the package declares the name in its block.
fn declares(name: &[u8], all: &[Found<'_>]) -> bool
    ensures { result ≡ declares name.now (map found_view all.now) }
{
    for d in all {
        if is_package(d.declaration.block) && same(d.name(), name) {
            return true;
        }
    }
    false
}

/// Whether the tokens from `first` on are these.
fn is_spelled(tokens: &Tokens, first: u32, words: &[&[u8]]) -> bool
    requires { first + length words.now ≤ 4294967295 }
    ensures { result ≡ is_spelled tokens.now first (map (λ w. w.now) words.now) }
{
    let mut token = first;
    for text in words {
        if !same(word(tokens, token), text) {
            return false;
        }
        token += 1;
    }
    true
}

/// Whether the tokens are `func readByte() int`, and `int` is the predeclared type; `hidden` says whether the package declares
/// `int`.
fn is_read_byte(hidden: bool, tokens: &Tokens, first: u32, last: u32) -> bool
    ensures { result ≡ is_read_byte hidden tokens.now first last }
{
    if hidden || first.checked_add(5) != Some(last) {
        return false;
    }
    let words: [&[u8]; 5] = [b"func", b"readByte", b"(", b")", b"int"];
    is_spelled(tokens, first, &words)
}

/// The bytes of the token behind another one.
fn bytes_behind(file: u32, tokens: &Tokens, token: u32) -> Span
    ensures { place_of result ≡ bytes_at file tokens.now (suc token) }
{
    if token < tokens.count() {
        bytes_at(file, tokens, token + 1)
    } else {
        bytes_at(file, tokens, token)
    }
}

/// No function lacks a body but the one that may.
#[derive(Drop)]
struct MissingBodies {
    /// Whether the package declares `int`.
    hidden: bool,
}

impl FileRule for MissingBodies {
    ghost use Rattle.go_base.specs.declared.fault.FaultCode.TheVariants as code;
    ghost use Rattle.go_tree.specs.Clauses.{bodiless};

    ghost code = { code.Outside };

    ghost places = { λ rule. bodiless rule.hidden };

    fn note_in(
        &self,
        _alloc: Global,
        found: Option<Fault>,
        file: u32,
        unit: &Unit<'_>,
    ) -> Result<Option<Fault>, Memory> {
        let mut found = found;
        for event in &unit.events {
            if let Event::Bodiless { first, last } = event {
                let fails = !is_read_byte(self.hidden, unit.tokens, *first, *last);
                let place = bytes_behind(file, unit.tokens, *first);
                found = note(found, fails, FaultCode::Outside, place);
            }
        }
        Ok(found)
    }
}

/// No function lacks a body but `func readByte() int` (Go specification: Function declarations).
fn missing_bodies(
    alloc: Global,
    found: Option<Fault>,
    all: &[Found<'_>],
    units: &[Unit<'_>],
) -> Result<Option<Fault>, Memory>
    requires { length units.now ≤ 256 }
    ensures { IfOk result (λ f. option_map failure_of f ≡ noted (option_map failure_of found) FaultCode.Outside (missing_bodies (map found_view all.now) (units_view units.now))) }
{
    let rule = MissingBodies {
        hidden: declares(b"int", all),
    };
    note_files(alloc, &rule, found, units)
}

/// The least fault of the rules on clauses; `all` are the declarations, with the names before each `:=`.
pub fn clause_faults(
    alloc: Global,
    all: &[Found<'_>],
    units: &[Unit<'_>],
) -> Result<Option<Fault>, Memory>
    requires { length units.now ≤ 256 }
    ensures { IfOk result (λ f. option_map failure_of f ≡ least (clause_faults_by (units_view units.now) (map found_view all.now))) }
{
    let named = package_names(None, units);
    let imported = imports(alloc, named, units)?;
    let declared = outside_declarations(imported, all);
    Ok(missing_bodies(alloc, declared, all, units)?)
}
