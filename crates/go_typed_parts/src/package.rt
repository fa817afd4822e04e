//! Packages with their types.
ghost use Rattle.std.specs.Prelude.{◌≡◌, List, Some, true, length, slice_get, IfSome, IsTrue};
ghost use Rattle.go_tree.specs.declared.object.Declared.{Declared};
ghost use Rattle.std.specs.List.{list_all};
ghost use Rattle.go_typed.specs.Packages as specs;
ghost use Rattle.go_typed.specs.Packages.{counts_from, no_counts, is_there};
ghost use Rattle.go_typed.specs.Trees.{sort_has};
ghost use Rattle.go_typed.specs.Views.{view};

use crate::known::{are_known_funcs, are_known_objects, are_known_trees};
use crate::objects::{are_numbered, counts_of};
use go_base::Name;
use go_tree::file::File;
use go_tree::uses::Uses;
use go_typed::{Checked, Env, Origin, TypedFunc, TypedNode};
use go_types::Types;

/// The package of these parts: its files in order with their names, what its names mean, its types and where each declared one
/// stands, what its objects stand for, the specifications of its variables, and its functions. None where these are no package.
pub fn typed_package(
    names: Vec<Name>,
    files: Vec<File>,
    uses: Uses,
    types: Types,
    origins: Vec<Origin>,
    env: Env,
    variables: Vec<TypedNode>,
    functions: Vec<TypedFunc>,
) -> Option<Checked>
    requires defined { list_all is_there types.rights ≡ true }
    requires origins { length origins.items ≡ length types.rights }
    ensures { IfSome result (λ c. c ≡ record { names = names.items; files = files.items; uses = uses; types = types; origins = origins.items; env = env; variables = variables.items; functions = functions.items }) }
{
    if names.len() != files.len()
        || files.len() != uses.files()
        || !are_objects(&uses, &types, &env)
        || !are_trees(&uses, &types, &variables, &functions)
        || !are_in_order(&functions)
        || !have_locals(&functions, &uses)
    {
        return None;
    }
    Some(Checked::new(
        names, files, uses, types, origins, env, variables, functions,
    ))
}

/// Whether all objects have their numbers by sort and types that are there.
fn are_objects(uses: &Uses, types: &Types, env: &Env) -> bool
    ensures many { IsTrue result → length env.now.objects ≡ length uses.now.package_level }
    ensures numbers { IsTrue result → env.now.referents ≡ specs.referents uses.now.package_level }
    ensures known { IsTrue result → list_all (sort_has (specs.is_below (length types.now.shapes))) env.now.objects ≡ true }
{
    env.count() == uses.package_objects().len()
        && are_numbered(uses.package_objects(), env)
        && are_known_objects(types.count(), env)
}

/// Whether all types and objects that variables and functions name are there.
fn are_trees(uses: &Uses, types: &Types, variables: &[TypedNode], functions: &[TypedFunc]) -> bool
    ensures variables { IsTrue result → list_all (λ n. specs.is_known_tree (counts_from no_counts uses.now.package_level) (length types.now.shapes) (view n)) variables.now ≡ true }
    ensures functions { IsTrue result → list_all (specs.is_known_func (counts_from no_counts uses.now.package_level) (length types.now.shapes)) functions.now ≡ true }
{
    let counts = counts_of(uses.package_objects());
    are_known_trees(counts, types.count(), variables)
        && are_known_funcs(counts, types.count(), functions)
}

/// Whether the numbers of functions are their places.
fn are_in_order(functions: &[TypedFunc]) -> bool
    ensures { result ≡ specs.are_numbered 0 functions.now }
{
    for index in 0..functions.len() {
        if functions[index].number() as usize != index {
            return false;
        }
    }
    true
}

/// Whether each function has as many locals as are declared in it.
fn have_locals(functions: &[TypedFunc], uses: &Uses) -> bool
    ensures { result ≡ specs.have_locals functions.now uses.now.locals }
{
    if functions.len() != uses.functions() {
        return false;
    }
    for index in 0..functions.len() {
        if functions[index].locals().len() != local_count(uses, index) {
            return false;
        }
    }
    true
}

/// How many locals the function of this number declares; none where there is no such function.
fn local_count(uses: &Uses, number: usize) -> usize
    ensures { (ds : List Declared) → slice_get uses.now.locals number ≡ Some ds → result ≡ length ds }
{
    match uses.locals(number) {
        Some(locals) => locals.len(),
        None => 0,
    }
}
