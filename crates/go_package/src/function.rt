//! One function of a package.
ghost use Rattle.std.specs.Prelude.{◌≡◌, IfOk, length, slice_get};
ghost use Rattle.std.specs.Option.{option_map};
ghost use Rattle.go_base.specs.Gives.{Gives};
ghost use Rattle.go_types.specs.Tables.{rights_of};
ghost use Rattle.go_types_relations.specs.Extends.{Extends};
ghost use Rattle.go_declarations.specs.Views.{specification_view};
ghost use Rattle.go_package_defs.specs.Bodies.{locals_there, placed, typed_function};
ghost use Rattle.go_stmts.specs.Bodies.{KnownObjects, KnownFunction};
ghost use Rattle.go_package.specs.Functions.{AreFiles, package_in, around_in, IsStanding, behind_seen, check_failure};

use crate::fault::placed;
use go_declarations::Specification;
use go_package_alike::laws::portions_say_what_scopes_say;
use go_package_defs::CheckError;
use go_stmts::type_body;
use go_tree::file::File;
use go_tree::object::Declared;
use go_tree::uses::Uses;
use go_typed::{Env, TypedFunc};
use go_types::Types;
use std::alloc::Global;

/// The file of this number, if there are so many.
pub(crate) fn file_at(files: &[File], number: usize) -> Option<&File>
    ensures { slice_get files.now number ≡ option_map (λ f. f.now) result }
{
    files.get(number)
}

/// The locals of the function of this number; none where there are not so many functions.
fn locals_of(uses: &Uses, number: u32) -> &[Declared]
    ensures { result.now ≡ locals_there (slice_get uses.now.locals number) }
{
    match uses.locals(number as usize) {
        Some(locals) => locals,
        None => &[],
    }
}

/// The typed function of this number, or the fault that is reported of it, by the bytes of its file. `Memory` also where there is no such
/// file.
pub(crate) fn type_function(
    alloc: Global,
    types: &mut Types,
    files: &[File],
    uses: &Uses,
    env: &Env,
    number: u32,
    specification: &Specification<'_>,
) -> Result<TypedFunc, CheckError>
    requires objects { KnownObjects (length types.old.shapes) env.now }
    requires files { AreFiles files.now }
    requires standing { IsStanding (package_in files.now uses.now) (specification_view specification.now) }
    ensures extends { Extends types.old types.new }
    ensures exact { let p = package_in files.now uses.now in let d = specification_view specification.now in
        Gives (behind_seen types.new) check_failure result (placed p d (typed_function p (around_in types.old env.now) (rights_of types.old) number d)) }
    ensures known { IfOk result (KnownFunction (length types.new.shapes)) }
{
    portions_say_what_scopes_say();
    types.count();
    let Some(file) = file_at(files, specification.file) else {
        return Err(CheckError::Memory);
    };
    let tokens = file.tokens();
    let locals = locals_of(uses, number);
    let base = specification.first;
    match type_body(
        alloc,
        types,
        tokens,
        uses,
        env,
        base,
        number,
        locals,
        specification.tree,
    ) {
        Ok(typed) => Ok(typed),
        Err(error) => Err(placed(tokens, base, error)),
    }
}
