//! The functions of a package.
ghost use Rattle.std.specs.Prelude.{◌≡◌, ◌+◌, IfOk, length};
ghost use Rattle.std.specs.List.{AllByRecursion};
ghost use Rattle.go_base.specs.Gives.{Gives};
ghost use Rattle.go_tree.specs.declared.context.Entity.TheVariants as entity;
ghost use Rattle.go_types.specs.Tables.{rights_of};
ghost use Rattle.go_types_relations.specs.Extends.{Extends};
ghost use Rattle.go_declarations.specs.Views.{seen_all};
ghost use Rattle.go_package_defs.specs.Bodies.{is_this, those_of, functions_from};
ghost use Rattle.go_stmts.specs.Bodies.{KnownObjects, KnownFunction};
ghost use Rattle.go_package.specs.Functions.{AreFiles, package_in, around_in, AreStanding, specified, functions_seen, check_failure};

use crate::function::type_function;
use crate::laws::declarations_stand;
use go_base::Memory;
use go_declarations::Specification;
use go_package_alike::laws::declarations_have_their_tokens;
use go_package_defs::CheckError;
use go_stmts::laws::functions_stay;
use go_tree::context::Entity;
use go_tree::file::File;
use go_tree::uses::Uses;
use go_typed::{Env, TypedFunc};
use go_types::Types;
use std::alloc::Global;

fn is_function(declared: Entity) -> bool
    ensures { result ≡ is_this entity.Function declared }
{
    matches!(declared, Entity::Function)
}

/// The next number. `Memory` where there is none.
fn next(number: u32) -> Result<u32, Memory>
    ensures { IfOk result (λ n. n ≡ number + 1) }
{
    number.checked_add(1).ok_or(Memory)
}

/// The functions among these specifications.
fn type_each(
    alloc: Global,
    types: &mut Types,
    files: &[File],
    uses: &Uses,
    env: &Env,
    specifications: &[Specification<'_>],
) -> Result<Vec<TypedFunc>, CheckError>
    requires objects { KnownObjects (length types.old.shapes) env.now }
    requires files { AreFiles files.now }
    requires standing { AreStanding (package_in files.now uses.now) entity.Function (seen_all specifications.now) }
    ensures extends { Extends types.old types.new }
    ensures exact { let p = package_in files.now uses.now in
        Gives (λ v. functions_seen types.new v.items) check_failure result (functions_from p (around_in types.old env.now) (rights_of types.old) 0 (those_of entity.Function (seen_all specifications.now))) }
    ensures known { IfOk result (λ v. AllByRecursion (KnownFunction (length types.new.shapes)) v.items) }
{
    functions_stay();
    types.count();
    let mut functions = Vec::new(alloc);
    let mut number: u32 = 0;
    for specification in specifications {
        if !is_function(specification.entity) {
            continue;
        }
        types.count();
        let typed = type_function(alloc, types, files, uses, env, number, specification)?;
        functions.push(typed)?;
        number = next(number)?;
    }
    Ok(functions)
}

/// The functions of a package with their types, in the order of files and places (Go specification: Function declarations). Their own
/// types get the next numbers of declared types, in that order.
///
/// The specifications are those of the files, whose names mean what `uses` says; `env` says what the objects of the package stand for.
/// Whatever is answered, the table of types only grows.
///
/// # Errors
///
/// Of the functions the first one with a fault decides: of its nodes in post-order the first one that has a rule that fails, by the least
/// place and then the least code. Or want of memory, which is also answered as by `go_stmts::type_body`.
pub fn type_functions(
    alloc: Global,
    types: &mut Types,
    files: &[File],
    uses: &Uses,
    env: &Env,
    specifications: &[Specification<'_>],
) -> Result<Vec<TypedFunc>, CheckError>
    requires objects { KnownObjects (length types.old.shapes) env.now }
    requires files { AreFiles files.now }
    requires specifications { seen_all specifications.now ≡ specified files.now }
    ensures extends { Extends types.old types.new }
    ensures exact { let p = package_in files.now uses.now in
        Gives (λ v. functions_seen types.new v.items) check_failure result (functions_from p (around_in types.old env.now) (rights_of types.old) 0 (those_of entity.Function (specified files.now))) }
    ensures known { IfOk result (λ v. AllByRecursion (KnownFunction (length types.new.shapes)) v.items) }
{
    declarations_have_their_tokens();
    declarations_stand();
    type_each(alloc, types, files, uses, env, specifications)
}
