//! A package with its types, put together.
ghost use Rattle.std.specs.Prelude.{◌≡◌, IfOk};
ghost use Rattle.go_package_defs.specs.Checked.{names_of, origins};

use crate::defined::defined_types;
use crate::origins::origins;
use go_base::{FileText, Memory, Name};
use go_tree::file::File;
use go_tree::uses::Uses;
use go_typed::{Checked, Env, TypedFunc, TypedNode};
use go_typed_parts::typed_package;
use go_types::Types;
use std::alloc::Global;

/// A copy of a name.
fn copied(name: &Name) -> Result<Name, Memory>
    ensures { IfOk result (λ copy. copy ≡ name.now) }
{
    Ok(name.clone()?)
}

/// The names of files.
fn names_of(alloc: Global, texts: &[FileText]) -> Result<Vec<Name>, Memory>
    ensures { IfOk result (λ v. v.items ≡ names_of texts.now) }
{
    let mut names = Vec::new(alloc);
    for text in texts {
        names.push(copied(&text.name)?)?;
    }
    Ok(names)
}

/// The package of these parts. `Memory` also where they are no package.
pub(crate) fn assembled(
    alloc: Global,
    texts: &[FileText],
    files: Vec<File>,
    uses: Uses,
    types: Types,
    env: Env,
    variables: Vec<TypedNode>,
    functions: Vec<TypedFunc>,
) -> Result<Checked, Memory>
    ensures { IfOk result (λ c. c ≡ record { names = names_of texts.now; files = files.items; uses = uses; types = types; origins = origins uses; env = env; variables = variables.items; functions = functions.items }) }
{
    let names = names_of(alloc, texts)?;
    let origins = origins(alloc, &uses)?;
    let Some(count) = defined_types(&types) else {
        return Err(Memory);
    };
    if origins.len() as u64 != count {
        return Err(Memory);
    }
    match typed_package(
        names, files, uses, types, origins, env, variables, functions,
    ) {
        Some(package) => Ok(package),
        None => Err(Memory),
    }
}
