//! Literals of arrays and structs (Go specification, "Composite literals").

ghost use Rattle.std.specs.Prelude.{◌≡◌, [], ◌∷◌, ℕ, IfOk, IfSome, ◌<◌, length, slice_set};
ghost use Rattle.go_types.specs.Tables.{type_of, rights_of};
ghost use Rattle.go_types.specs.Trees.{TypeTree};
ghost use Rattle.go_typed.specs.Trees.{all_mapped};
ghost use Rattle.go_typed.specs.Views as typed;
ghost use Rattle.go_meaning.specs.Computations as meaning;
ghost use Rattle.go_meaning.specs.Operations.{Build, Gives, perform, placed};
ghost use Rattle.go_meaning.specs.Planning.{place_of, places_from, places_of, zero_in};
ghost use Rattle.go_eval_plans.specs.Views.{type_in};
ghost use Rattle.go_values.specs.Views.{view, views};
ghost use Rattle.go_eval_operations.specs.Building.{place_there};

use crate::zeros::zero_value;
use go_base::Memory;
use go_typed::form::Form;
use go_typed::node::TypedNode;
use go_types::{TypeId, Types};
use go_values::Value;
use std::alloc::Global;
use std::mem;

/// The place of an element: that of its key, or the next one.
fn place_of(form: Form, next: usize) -> usize
    ensures { result ≡ place_of form next }
{
    match form {
        Form::Keyed(place) => place as usize,
        _ => next,
    }
}

/// The place of an element, where it is there.
#[tactic(auto, using(go_eval_plans::proofs::Seen::form_out))]
fn element_place(element: &Option<TypedNode>, next: usize) -> Option<usize>
    ensures { (f : ℕ → TypeTree) → result ≡ place_there f element.now next }
{
    match element {
        Some(node) => Some(place_of(node.form, next)),
        None => None,
    }
}

/// The places of elements, counted from the first.
fn places_of_elements(alloc: Global, elements: &[Option<TypedNode>]) -> Result<Vec<usize>, Memory>
    ensures { IfOk result (λ places. (f : ℕ → TypeTree) → places.items ≡ places_from 0 (all_mapped f (typed.views elements.now))) }
{
    let mut places = Vec::with_capacity(alloc, elements.len())?;
    for next in 0..elements.len() {
        match element_place(&elements[next], next) {
            Some(place) => places.push(place)?,
            None => (),
        }
    }
    Ok(places)
}

/// The places of the elements behind the type.
fn places(alloc: Global, parts: &[Option<TypedNode>]) -> Result<Vec<usize>, Memory>
    ensures { IfOk result (λ places. (f : ℕ → TypeTree) → places.items ≡ places_of (all_mapped f (typed.views parts.now))) }
{
    match parts {
        [] => Ok(Vec::new(alloc)),
        [_, elements @ ..] => places_of_elements(alloc, elements),
    }
}

/// Puts a value at a place, where there is one.
#[tactic(auto, using(go_values::proofs::Views::views_set, go_values::proofs::Views::set_beyond))]
fn put(values: &mut Vec<Value>, place: usize, value: Value)
    ensures { views values.new.items ≡ slice_set (views values.old.items) place (view value) }
{
    if place < values.len() {
        values[place] = value;
    }
}

/// The values with others at these places.
fn placed(values: Vec<Value>, places: &[usize], others: Vec<Value>) -> Vec<Value>
    ensures { views result.items ≡ placed places.now (views others.items) (views values.items) }
{
    let mut values = values;
    let mut others = others;
    let count = places.len().min(others.len());
    for i in 0..count {
        let value = mem::replace(&mut others[i], Value::NilFunction);
        put(&mut values, places[i], value);
    }
    values
}

/// An array or a struct with the operands as the elements that stand in a literal, the rest as in the zero value of the type.
///
/// # Errors
///
/// Want of memory.
pub fn build(
    alloc: Global,
    types: &Types,
    ty: Option<TypeId>,
    parts: &[Option<TypedNode>],
    operands: Vec<Value>,
) -> Result<Value, Memory>
    requires { IfSome ty (λ a. a < length types.now.shapes) }
    ensures { IfOk result (λ v. (f : ℕ → TypeTree) (w : meaning.World) →
        perform (Build (zero_in (rights_of types.now) (type_in (type_of types.now.shapes) ty)) (places_of (all_mapped f (typed.views parts.now)))) (views operands.items) w ≡ Gives (view v ∷ []) w) }
{
    let zero = zero_value(alloc, types, ty)?;
    let places = places(alloc, parts)?;
    let built = placed(zero.into_parts(alloc)?, places.as_slice(), operands);
    Value::of_parts(alloc, built)
}
