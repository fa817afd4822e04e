//! The parts of nodes, and what their sorts tell.

ghost use Rattle.std.specs.Prelude.{◌≡◌, ◌<◌, ℕ, Bool, IfSome, slice_get, length};
ghost use Rattle.go_types_relations.specs.Questions.{entry};
ghost use Rattle.std.specs.Option.{option_map};
ghost use Rattle.go_types.specs.Trees.{TypeTree};
ghost use Rattle.go_typed.specs.Trees.{mapped, all_mapped, sort_mapped, SortHas, Every, EveryPart};
ghost use Rattle.go_typed.specs.Views.{view, views, sort_view};
ghost use Rattle.go_meaning.specs.Planning as planning;
ghost use Rattle.go_types.specs.Tables.{type_of, rights_of};
ghost use Rattle.go_typed.specs.Views.{AllKnown, all_seen};
ghost use Rattle.go_eval_plans.specs.Known.{KnownGroup};
ghost use Rattle.go_eval_plans.specs.Views.{type_in, IsGroup, is_default_there};

use crate::groups::{Group, group_of};
use go_typed::form::Form;
use go_typed::node::TypedNode;
use go_typed::sort::Sort;
use go_types::{TypeId, Types};

/// The type of a sort that has one.
pub fn sort_type(sort: &Sort) -> Option<TypeId>
    ensures is { (f : ℕ → TypeTree) → type_in f result ≡ planning.sort_type (sort_mapped f (sort_view sort.now)) }
    ensures known { (n : ℕ) → SortHas (λ t. t < n) (sort_view sort.now) → IfSome result (λ a. a < n) }
{
    match sort {
        Sort::Type(ty) | Sort::Value(ty) => Some(*ty),
        Sort::Constant(ty, _) => Some(ty.id()),
        _ => None,
    }
}

/// What stands in a row at a number.
fn place(parts: &[Option<TypedNode>], number: usize) -> Option<&Option<TypedNode>>
    ensures { slice_get parts.now number ≡ option_map (λ x. x.now) result }
{
    parts.get(number)
}

/// A part, if it is there.
pub fn part(parts: &[Option<TypedNode>], number: usize) -> Option<&TypedNode>
    ensures { entry parts.now number ≡ option_map (λ x. x.now) result }
{
    match place(parts, number) {
        Some(Some(part)) => Some(part),
        _ => None,
    }
}

/// Whether a part is there.
pub fn is_there(parts: &[Option<TypedNode>], number: usize) -> bool
    ensures { (f : ℕ → TypeTree) → result ≡ planning.is_there (planning.part_at (all_mapped f (views parts.now)) number) }
{
    part(parts, number).is_some()
}

/// The type of a part, if it has one.
pub fn type_at(parts: &[Option<TypedNode>], number: usize) -> Option<TypeId>
    ensures is { (f : ℕ → TypeTree) → type_in f result ≡ planning.type_there (planning.part_at (all_mapped f (views parts.now)) number) }
    ensures known { (n : ℕ) → EveryPart (λ t. t < n) (views parts.now) → IfSome result (λ a. a < n) }
{
    match part(parts, number) {
        Some(node) => sort_type(&node.sort),
        None => None,
    }
}

/// Whether a part has a call that is no constant.
pub fn calls_at(parts: &[Option<TypedNode>], number: usize) -> bool
    ensures { (f : ℕ → TypeTree) → result ≡ planning.calls_there (planning.part_at (all_mapped f (views parts.now)) number) }
{
    match part(parts, number) {
        Some(node) => node.calls,
        None => false,
    }
}

fn is_default(part: &Option<TypedNode>) -> bool
    ensures { (f : ℕ → TypeTree) → result ≡ is_default_there (option_map (λ x. mapped f (view x)) part.now) }
{
    match part {
        Some(node) => matches!(node.form, Form::Default),
        None => false,
    }
}

/// The place of the default clause, or that behind all parts.
pub fn default_at(parts: &[Option<TypedNode>]) -> usize
    ensures { (f : ℕ → TypeTree) → result ≡ planning.default_at (all_mapped f (views parts.now)) }
{
    for place in 0..parts.len() {
        if is_default(&parts[place]) {
            return place;
        }
    }
    parts.len()
}

/// The group of the type of a part.
pub fn group_at(types: &Types, parts: &[Option<TypedNode>], number: usize) -> Group
    requires { AllKnown (length types.now.shapes) parts.now }
    ensures group { IsGroup (type_of types.now.shapes) result (planning.shape_at (rights_of types.now) (all_seen types.now parts.now) number) }
    ensures known { KnownGroup (length types.now.shapes) result }
{
    group_of(types, type_at(parts, number))
}
