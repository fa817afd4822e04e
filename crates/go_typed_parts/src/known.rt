//! Whether the types and the objects that are named are there.
ghost use Rattle.std.specs.Prelude.{◌≡◌, ℕ, Some, map, slice_get};
ghost use Rattle.std.specs.List.{list_all};
ghost use Rattle.go_typed.specs.Packages as specs;
ghost use Rattle.go_typed.specs.Packages.{is_below, refers_to};
ghost use Rattle.go_typed.specs.Trees as specs_sort;
ghost use Rattle.go_typed.specs.Trees.{sort_has, every, every_part, every_form, forms_among};
ghost use Rattle.go_typed.specs.Views.{sort_view, view, views};
ghost use Rattle.go_typed_parts.specs.Shown.{counts_view};

use crate::objects::Counts;
use go_typed::{Env, Sort, TypedFunc, TypedNode};

/// Whether the type of what something stands for is among so many.
fn is_known_sort(count: u64, sort: &Sort) -> bool
    ensures { result ≡ sort_has (is_below count) (sort_view sort.now) }
{
    match sort {
        Sort::Type(ty) => *ty < count,
        Sort::Value(ty) => *ty < count,
        Sort::Constant(ty, _) => ty.id() < count,
        Sort::Results(ty) => *ty < count,
        _ => true,
    }
}

fn are_known_sorts(count: u64, sorts: &[Sort]) -> bool
    ensures { result ≡ list_all (sort_has (is_below count)) (map sort_view sorts.now) }
{
    for sort in sorts {
        if !is_known_sort(count, sort) {
            return false;
        }
    }
    true
}

/// The same of what the objects of a package stand for.
pub(crate) fn are_known_objects(count: u64, env: &Env) -> bool
    ensures { result ≡ list_all (sort_has (is_below count)) env.now.objects }
{
    for number in 0..env.count() {
        if !is_known_object(count, env, number) {
            return false;
        }
    }
    true
}

/// The same of the object of this number.
fn is_known_object(count: u64, env: &Env, number: usize) -> bool
    ensures { (s : specs_sort.Sort ℕ) → slice_get env.now.objects number ≡ Some s → result ≡ sort_has (is_below count) s }
{
    match env.sort(number) {
        Some(sort) => is_known_sort(count, sort),
        None => true,
    }
}

/// Whether all types of a tree are among so many.
#[cycle(types)]
#[tactic(auto, using(crate::proofs::Opened::every_opened))]
fn has_known_types(count: u64, node: &TypedNode) -> bool
    ensures { result ≡ every (is_below count) (view node.now) }
{
    is_known_sort(count, &node.sort) && have_known_types(count, &node.parts)
}

#[cycle(types)]
fn have_known_types(count: u64, parts: &[Option<TypedNode>]) -> bool
    ensures { result ≡ every_part (is_below count) (views parts.now) }
{
    for part in parts {
        if let Some(node) = part {
            if !has_known_types(count, node) {
                return false;
            }
        }
    }
    true
}

/// Whether all objects that a tree names are there.
#[cycle(objects)]
#[tactic(auto, using(crate::proofs::Opened::forms_opened))]
fn has_known_objects(counts: Counts, node: &TypedNode) -> bool
    ensures { result ≡ every_form (refers_to (counts_view counts)) (view node.now) }
{
    counts.has_named(node.form) && have_known_objects(counts, &node.parts)
}

#[cycle(objects)]
fn have_known_objects(counts: Counts, parts: &[Option<TypedNode>]) -> bool
    ensures { result ≡ forms_among (refers_to (counts_view counts)) (views parts.now) }
{
    for part in parts {
        if let Some(node) = part {
            if !has_known_objects(counts, node) {
                return false;
            }
        }
    }
    true
}

fn is_known_tree(counts: Counts, count: u64, node: &TypedNode) -> bool
    ensures { result ≡ specs.is_known_tree (counts_view counts) count (view node.now) }
{
    has_known_types(count, node) && has_known_objects(counts, node)
}

/// Whether all types and objects of trees are there.
pub(crate) fn are_known_trees(counts: Counts, count: u64, nodes: &[TypedNode]) -> bool
    ensures { result ≡ list_all (λ n. specs.is_known_tree (counts_view counts) count (view n)) nodes.now }
{
    for node in nodes {
        if !is_known_tree(counts, count, node) {
            return false;
        }
    }
    true
}

fn is_known_func(counts: Counts, count: u64, f: &TypedFunc) -> bool
    ensures { result ≡ specs.is_known_func (counts_view counts) count f.now }
{
    f.signature() < count
        && are_known_sorts(count, f.locals())
        && is_known_tree(counts, count, f.root())
}

/// Whether all types and objects of functions are there.
pub(crate) fn are_known_funcs(counts: Counts, count: u64, functions: &[TypedFunc]) -> bool
    ensures { result ≡ list_all (specs.is_known_func (counts_view counts) count) functions.now }
{
    for f in functions {
        if !is_known_func(counts, count, f) {
            return false;
        }
    }
    true
}
