//! The functions and the variables of a package.
ghost use Rattle.std.specs.Prelude.{◌≡◌, Err, length};
ghost use Rattle.go_base.specs.Gives.{Meets};
ghost use Rattle.go_types_relations.specs.Extends.{Extends};
ghost use Rattle.go_package.specs.Functions.{AreFiles, KnownObjects, check_failure};
ghost use Rattle.go_package.specs.Checks.{functions_behind, ShowsBodies};

use crate::{functions_stay, type_functions, type_variables};
use go_declarations::specifications;
use go_package_defs::CheckError;
use go_tree::file::File;
use go_tree::uses::Uses;
use go_typed::{Env, TypedFunc, TypedNode};
use go_types::Types;
use std::alloc::Global;

/// The functions of a package, and the typed trees of its variables.
#[derive(Drop)]
pub(crate) struct Bodies {
    pub(crate) functions: Vec<TypedFunc>,
    pub(crate) variables: Vec<TypedNode>,
}

/// The functions and variables of a package with their types (Go specification: Function declarations, Variable declarations).
///
/// # Errors
///
/// The fault of the first function that has one, or want of memory.
pub(crate) fn type_bodies(
    alloc: Global,
    types: &mut Types,
    files: &[File],
    uses: &Uses,
    env: &Env,
) -> Result<Bodies, CheckError>
    requires objects { KnownObjects (length types.old.shapes) env.now }
    requires files { AreFiles files.now }
    ensures extends { Extends types.old types.new }
    ensures exact { Meets check_failure result (ShowsBodies types.old types.new files.now uses.now env.now) (λ g. functions_behind types.old files.now uses.now env.now ≡ Err g) }
{
    functions_stay();
    types.count();
    let specifications = specifications(alloc, files)?;
    let functions = type_functions(alloc, types, files, uses, env, &specifications)?;
    types.count();
    let variables = type_variables(alloc, types, files, uses, env, &specifications)?;
    Ok(Bodies {
        functions,
        variables,
    })
}
