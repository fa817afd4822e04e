//! The variables of a package.
ghost use Rattle.std.specs.Prelude.{◌≡◌, IfOk, OnOk, [], ◌∷◌, length, map};
ghost use Rattle.std.specs.List.{AllByRecursion};
ghost use Rattle.go_tree.specs.declared.context.Entity.TheVariants as entity;
ghost use Rattle.go_types.specs.Tables.{rights_of};
ghost use Rattle.go_types_relations.specs.Extends.{Extends};
ghost use Rattle.go_typed.specs.Views.{seen, Known};
ghost use Rattle.go_declarations.specs.Views.{specification_view, seen_all};
ghost use Rattle.go_package_defs.specs.Bodies.{is_this, those_of, portion_of, variable_of, variables_of};
ghost use Rattle.go_stmts.specs.Bodies.{KnownObjects};
ghost use Rattle.go_package.specs.Functions.{AreFiles, package_in, around_in, IsStanding, AreStanding, specified, IsPlain, ArePlainVariables};

use crate::function::file_at;
use crate::laws::declarations_stand;
use go_base::Memory;
use go_declarations::Specification;
use go_package_alike::laws::{declarations_have_their_tokens, portions_say_what_scopes_say};
use go_stmts::type_variables as type_specification;
use go_tree::context::Entity;
use go_tree::file::File;
use go_tree::uses::Uses;
use go_typed::{Env, TypedNode};
use go_types::Types;
use std::alloc::Global;

fn is_variable(declared: Entity) -> bool
    ensures { result ≡ is_this entity.Variable declared }
{
    matches!(declared, Entity::Variable)
}

/// The typed tree of a specification of variables. `Memory` also where a rule fails in it, and where there is no such file.
fn type_variable(
    alloc: Global,
    types: &mut Types,
    files: &[File],
    uses: &Uses,
    env: &Env,
    specification: &Specification<'_>,
) -> Result<TypedNode, Memory>
    requires objects { KnownObjects (length types.old.shapes) env.now }
    requires files { AreFiles files.now }
    requires standing { IsStanding (package_in files.now uses.now) (specification_view specification.now) }
    requires plain { let d = specification_view specification.now in IsPlain d.tree }
    ensures extends { Extends types.old types.new }
    ensures rights { OnOk result (rights_of types.new ≡ rights_of types.old) }
    ensures exact { let p = package_in files.now uses.now in let d = specification_view specification.now in
        IfOk result (λ n. variable_of (around_in types.old env.now) (rights_of types.old) (portion_of p d) ≡ seen types.new n ∷ []) }
    ensures known { IfOk result (Known (length types.new.shapes)) }
{
    portions_say_what_scopes_say();
    types.count();
    let Some(file) = file_at(files, specification.file) else {
        return Err(Memory);
    };
    let tokens = file.tokens();
    match type_specification(
        alloc,
        types,
        tokens,
        uses,
        env,
        specification.first,
        specification.tree,
    ) {
        Ok(typed) => Ok(typed),
        Err(_) => Err(Memory),
    }
}

/// The typed trees of the specifications of variables among these.
fn type_each(
    alloc: Global,
    types: &mut Types,
    files: &[File],
    uses: &Uses,
    env: &Env,
    specifications: &[Specification<'_>],
) -> Result<Vec<TypedNode>, Memory>
    requires objects { KnownObjects (length types.old.shapes) env.now }
    requires files { AreFiles files.now }
    requires standing { AreStanding (package_in files.now uses.now) entity.Variable (seen_all specifications.now) }
    requires plain { ArePlainVariables (seen_all specifications.now) }
    ensures extends { Extends types.old types.new }
    ensures rights { OnOk result (rights_of types.new ≡ rights_of types.old) }
    ensures exact { let p = package_in files.now uses.now in
        IfOk result (λ v. map (seen types.new) v.items ≡ variables_of p (around_in types.old env.now) (rights_of types.old) (those_of entity.Variable (seen_all specifications.now))) }
    ensures known { IfOk result (λ v. AllByRecursion (Known (length types.new.shapes)) v.items) }
{
    types.count();
    let mut variables = Vec::new(alloc);
    for specification in specifications {
        if !is_variable(specification.entity) {
            continue;
        }
        types.count();
        let typed = type_variable(alloc, types, files, uses, env, specification)?;
        variables.push(typed)?;
    }
    Ok(variables)
}

/// The typed trees of the specifications of variables of a package, in the order of files and places (Go specification: Variable
/// declarations). No type is declared by them.
///
/// The specifications are those of the files, whose names mean what `uses` says; `env` says what the objects of the package stand for.
/// Whatever is answered, the table of types only grows.
///
/// # Errors
///
/// Want of memory; also where a rule fails in a specification.
pub fn type_variables(
    alloc: Global,
    types: &mut Types,
    files: &[File],
    uses: &Uses,
    env: &Env,
    specifications: &[Specification<'_>],
) -> Result<Vec<TypedNode>, Memory>
    requires objects { KnownObjects (length types.old.shapes) env.now }
    requires files { AreFiles files.now }
    requires specifications { seen_all specifications.now ≡ specified files.now }
    ensures extends { Extends types.old types.new }
    ensures rights { OnOk result (rights_of types.new ≡ rights_of types.old) }
    ensures exact { let p = package_in files.now uses.now in
        IfOk result (λ v. map (seen types.new) v.items ≡ variables_of p (around_in types.old env.now) (rights_of types.old) (those_of entity.Variable (specified files.now))) }
    ensures known { IfOk result (λ v. AllByRecursion (Known (length types.new.shapes)) v.items) }
{
    declarations_have_their_tokens();
    declarations_stand();
    type_each(alloc, types, files, uses, env, specifications)
}
