//! Arrays and structs.

ghost use Rattle.std.specs.Prelude.{◌≡◌, ◌<◌, [], ◌∷◌, IfOk, OnOk, ℕ, slice_get, slice_set};
ghost use Rattle.std.specs.Option.{option_map};
ghost use Rattle.go_meaning.specs.Values.{NilFunction, nth, parts_of, with_part};
ghost use Rattle.go_meaning.specs.Computations.{World};
ghost use Rattle.go_meaning.specs.Operations.{Field, Element, Gives, Deed, at_index, perform};
ghost use Rattle.go_values.specs.Views.{view, views};
ghost use Rattle.go_values.specs.Deeds.{IsDone, at_place};
ghost use Rattle.go_values.specs.Inner.{with_inner};

use crate::lists::put;
use crate::panic::{Panic, Stop};
use crate::value::{Value, copies_of};
use go_base::Memory;
use std::alloc::Global;
use std::mem;
use std::rc::Rc;

/// The place that an index tells, where it is below `length` (Go specification, "Index expressions").
///
/// # Errors
///
/// An index out of range.
pub fn place_of(index: &Value, length: usize) -> Result<usize, Panic>
    ensures place { (then : ℕ → Deed) → at_index length (view index.now) then ≡ at_place result then }
    ensures within { IfOk result (λ k. k < length) }
{
    let index = index.whole();
    if 0 <= index && index < length as i128 {
        Ok(index as usize)
    } else {
        Err(Panic::Index)
    }
}

/// A part of an array or a struct, where it has one at the place.
pub fn part(value: &Value, place: usize) -> Option<&Value>
    ensures { option_map (λ v. view v.now) result ≡ slice_get (parts_of (view value.now)) place }
{
    value.parts().get(place)
}

/// A copy of a part; a nil function where there is none at the place.
pub fn copy_part(alloc: Global, value: &Value, place: usize) -> Result<Value, Memory>
    ensures { IfOk result (λ v. view v ≡ nth (parts_of (view value.now)) place) }
{
    match part(value, place) {
        Some(part) => part.copy_of(alloc),
        None => Ok(Value::NilFunction),
    }
}

/// A field of a struct, by its number (Go specification, "Selectors").
///
/// # Errors
///
/// Want of memory.
pub fn field(alloc: Global, number: usize, value: &Value) -> Result<Value, Memory>
    ensures { IfOk result (λ v. (w : World) → perform (Field number) (view value.now ∷ []) w ≡ Gives (view v ∷ []) w) }
{
    copy_part(alloc, value, number)
}

/// An element of an array of this length (Go specification, "Index expressions").
///
/// # Errors
///
/// An index out of range; want of memory.
pub fn element(alloc: Global, length: usize, array: &Value, index: &Value) -> Result<Value, Stop>
    ensures { (w : World) → IsDone result w (perform (Element length) (view array.now ∷ view index.now ∷ []) w) }
{
    let place = place_of(index, length)?;
    Ok(copy_part(alloc, array, place)?)
}

/// The array or struct with another part at the place, where it has one there. No part is copied where nobody shares them; else
/// one level of them is.
///
/// # Errors
///
/// Want of memory.
pub fn with_part(alloc: Global, value: Value, place: usize, part: Value) -> Result<Value, Memory>
    ensures { IfOk result (λ v. view v ≡ with_part (view value) place (view part)) }
{
    match value {
        Value::Parts(mut parts) => {
            put_shared(alloc, &mut parts, place, part)?;
            Ok(Value::Parts(parts))
        }
        _ => Value::of_parts(alloc, Vec::new(alloc)),
    }
}

/// Puts a part at a place, where there is one: in place where nobody shares the parts, else in a copy of them.
fn put_shared(
    alloc: Global,
    parts: &mut Rc<Vec<Value>>,
    place: usize,
    part: Value,
) -> Result<(), Memory>
    ensures { OnOk result (views parts.new.value.items ≡ slice_set (views parts.old.value.items) place (view part)) }
{
    match Rc::get_mut(parts) {
        Some(parts) => {
            put(parts, place as u128, part);
            Ok(())
        }
        None => {
            let mut copies = copies_of(alloc, Rc::as_ref(parts).as_slice())?;
            put(&mut copies, place as u128, part);
            *parts = Rc::new(alloc, copies)?;
            Ok(())
        }
    }
}

/// The array or struct with a nil function at the place, and what was there. It serves to write a part of a part without a
/// copy.
///
/// # Errors
///
/// Want of memory.
pub fn take_part(alloc: Global, value: Value, place: usize) -> Result<(Value, Value), Memory>
    ensures rest { IfOk result (λ vs. view vs.0 ≡ with_part (view value) place NilFunction) }
    ensures taken { IfOk result (λ vs. view vs.1 ≡ nth (parts_of (view value)) place) }
{
    match value {
        Value::Parts(mut parts) => {
            let part = take_shared(alloc, &mut parts, place)?;
            Ok((Value::Parts(parts), part))
        }
        _ => Ok((Value::of_parts(alloc, Vec::new(alloc))?, Value::NilFunction)),
    }
}

/// Takes the part at a place out, and leaves a nil function: in place where nobody shares the parts, else in a copy of them.
fn take_shared(alloc: Global, parts: &mut Rc<Vec<Value>>, place: usize) -> Result<Value, Memory>
    ensures taken { IfOk result (λ v. view v ≡ nth (views parts.old.value.items) place) }
    ensures left { OnOk result (views parts.new.value.items ≡ slice_set (views parts.old.value.items) place NilFunction) }
{
    match Rc::get_mut(parts) {
        Some(parts) => Ok(taken(parts, place as u128)),
        None => {
            let mut copies = copies_of(alloc, Rc::as_ref(parts).as_slice())?;
            let part = taken(&mut copies, place as u128);
            *parts = Rc::new(alloc, copies)?;
            Ok(part)
        }
    }
}

/// Takes the value at a place out, and leaves a nil function.
#[tactic(auto, using(crate::proofs::Views::nth_within, crate::proofs::Views::nth_beyond, crate::proofs::Views::view_nil, crate::proofs::Views::views_set, crate::proofs::Views::set_beyond))]
pub(crate) fn taken(values: &mut Vec<Value>, place: u128) -> Value
    ensures taken { view result ≡ nth (views values.old.items) place }
    ensures left { views values.new.items ≡ slice_set (views values.old.items) place NilFunction }
{
    if place < values.len() as u128 {
        mem::replace(&mut values[place as usize], Value::NilFunction)
    } else {
        Value::NilFunction
    }
}

/// The value with another one at the end of a path of places, each a place in the part before. What nobody shares is changed in
/// place.
///
/// # Errors
///
/// Want of memory.
pub fn with_inner(
    alloc: Global,
    value: Value,
    path: &[usize],
    inner: Value,
) -> Result<Value, Memory>
    ensures { IfOk result (λ v. view v ≡ with_inner path.now (view value) (view inner)) }
{
    match path {
        [] => Ok(inner),
        [place, rest @ ..] => {
            let (whole, part) = take_part(alloc, value, *place)?;
            let other = with_inner(alloc, part, rest, inner)?;
            with_part(alloc, whole, *place, other)
        }
    }
}
