//! The phases of a check behind the reading of the files: names, declarations, bodies.
ghost use Rattle.std.specs.Prelude.{◌≡◌, ◌≤◌, None, IfOk, length};
ghost use Rattle.std.specs.Option.{option_map};
ghost use Rattle.go_base.specs.Gives.{Gives};
ghost use Rattle.go_tree.specs.Faults.{reported};
ghost use Rattle.go_tree.specs.Uses as names;
ghost use Rattle.go_typed.specs.Contents.{content};
ghost use Rattle.go_typed.specs.Packages.{referents};
ghost use Rattle.go_scopes_events.specs.Scopes.{AreOrderly};
ghost use Rattle.go_scopes_lookup.specs.Views.{units_view};
ghost use Rattle.go_scopes.specs.Resolve as resolving;
ghost use Rattle.go_scopes.specs.Views.{failure_of};
ghost use Rattle.go_exprs.specs.Expressions.{failure_named};
ghost use Rattle.go_package_defs.specs.Checked.{names_of, AreRead, files_answer};
ghost use Rattle.go_package_types.specs.Answers.{AreLexedFiles, environment_seen};
ghost use Rattle.go_package.specs.Functions.{AreFiles, KnownObjects, check_failure};
ghost use Rattle.go_package.specs.Checks.{bodies_behind, declarations_behind, declarations_answer, declared};

use crate::assembly::assembled;
use crate::bodies::{Bodies, type_bodies};
use go_base::FileText;
use go_exprs::TypeError;
use go_package_defs::CheckError;
use go_package_types::type_package;
use go_scopes::error::ResolveError;
use go_scopes::resolve::{resolve_units, units_of};
use go_scopes_lookup::unit::Unit;
use go_tree::file::File;
use go_tree::uses::Uses;
use go_typed::{Checked, Env};
use go_types::Types;
use std::alloc::Global;

/// The error of names as one of the check.
fn of_names(error: ResolveError) -> CheckError
    ensures { check_failure result ≡ option_map failure_of (resolving.refusal_of error) }
{
    match error {
        ResolveError::Fault(fault) => CheckError::Fault(fault),
        ResolveError::Memory => CheckError::Memory,
    }
}

/// The error of declarations as one of the check.
fn of_declarations(error: TypeError) -> CheckError
    ensures { check_failure result ≡ failure_named error }
{
    match error {
        TypeError::Fault(fault) => CheckError::Fault(fault),
        TypeError::Memory => CheckError::Memory,
    }
}

/// The last phase: the bodies of a package whose declarations have no fault. The table has their types.
fn check_bodies(
    alloc: Global,
    texts: &[FileText],
    files: Vec<File>,
    uses: Uses,
    types: Types,
    env: Env,
) -> Result<Checked, CheckError>
    requires objects { KnownObjects (length types.shapes) env }
    requires files { AreFiles files.items }
    requires referents { env.referents ≡ referents uses.package_level }
    ensures { Gives content check_failure result (bodies_behind (names_of texts.now) files.items uses (environment_seen types env)) }
{
    let mut types = types;
    types.count();
    let Bodies {
        functions,
        variables,
    } = type_bodies(alloc, &mut types, &files, &uses, &env)?;
    Ok(assembled(alloc, texts, files, uses, types, env, variables, functions)?)
}

/// What the names of a package mean, and what its objects stand for with the table of their types.
#[derive(Drop)]
struct Declarations {
    uses: Uses,
    types: Types,
    env: Env,
}

/// The declarations of a package whose names have no fault.
fn check_declarations<'a>(
    alloc: Global,
    files: &[File],
    units: &'a [Unit<'a>],
    uses: Uses,
) -> Result<Declarations, CheckError>
    requires few { length files.now ≤ 256 }
    requires lexed { AreLexedFiles 0 files.now }
    requires units { units_view units.now ≡ resolving.units_of files.now }
    requires orderly { AreOrderly (units_view units.now) }
    requires sound { reported (resolving.units_of files.now) ≡ None }
    requires uses { uses ≡ names.uses (resolving.units_of files.now) }
    ensures exact { Gives declared check_failure result (declarations_behind files.now uses) }
    ensures objects { IfOk result (λ d. KnownObjects (length d.types.shapes) d.env) }
    ensures referents { IfOk result (λ d. d.env.referents ≡ referents d.uses.package_level) }
{
    let mut types = Types::new(alloc);
    match type_package(alloc, files, units, &uses, &mut types) {
        Ok(env) => Ok(Declarations { uses, types, env }),
        Err(error) => Err(of_declarations(error)),
    }
}

/// The names of a package, and then its declarations.
fn check_objects(alloc: Global, files: &[File]) -> Result<Declarations, CheckError>
    requires few { length files.now ≤ 256 }
    requires lexed { AreLexedFiles 0 files.now }
    ensures exact { Gives declared check_failure result (declarations_answer files.now) }
    ensures objects { IfOk result (λ d. KnownObjects (length d.types.shapes) d.env) }
    ensures referents { IfOk result (λ d. d.env.referents ≡ referents d.uses.package_level) }
{
    let units = units_of(alloc, files)?;
    match resolve_units(alloc, &units) {
        Ok(uses) => check_declarations(alloc, files, &units, uses),
        Err(error) => Err(of_names(error)),
    }
}

/// The names of a package whose files have trees, and then its declarations and its bodies.
pub(crate) fn check_names(
    alloc: Global,
    texts: &[FileText],
    files: Vec<File>,
) -> Result<Checked, CheckError>
    requires few { length files.items ≤ 256 }
    requires read { AreRead 0 texts.now files.items }
    ensures { Gives content check_failure result (files_answer (names_of texts.now) files.items) }
{
    let Declarations { uses, types, env } = check_objects(alloc, &files)?;
    check_bodies(alloc, texts, files, uses, types, env)
}
