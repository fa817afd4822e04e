//! Lists of values.

ghost use Rattle.std.specs.Prelude.{◌≡◌, ◌+◌, ◌++◌, ◌<◌, ◌≤◌, ◌^◌, length, [], ◌∷◌, IfOk, OnOk, OnErr, replicate, slice_set, take, drop};
ghost use Rattle.go_meaning.specs.Values.{nth};
ghost use Rattle.go_meaning.specs.Operations.{put_at};
ghost use Rattle.go_values.specs.Views.{view, views};

use crate::value::Value;
use go_base::Memory;
use std::alloc::Global;

/// A copy of the value at a place; a nil function where there is none.
#[tactic(auto, using(crate::proofs::Views::nth_within, crate::proofs::Views::nth_beyond, crate::proofs::Views::view_nil))]
pub(crate) fn copy_at(alloc: Global, values: &[Value], place: u128) -> Result<Value, Memory>
    ensures { IfOk result (λ v. view v ≡ nth (views values.now) place) }
{
    if place < values.len() as u128 {
        values[place as usize].copy_of(alloc)
    } else {
        Ok(Value::NilFunction)
    }
}

/// Puts a value at a place, where there is one.
#[tactic(auto, using(crate::proofs::Views::views_set, crate::proofs::Views::set_beyond))]
pub(crate) fn put(values: &mut Vec<Value>, place: u128, value: Value)
    ensures { views values.new.items ≡ slice_set (views values.old.items) place (view value) }
{
    if place < values.len() as u128 {
        values[place as usize] = value;
    }
}

/// The values, and so many copies of the filler behind them.
pub(crate) fn filled(
    alloc: Global,
    values: Vec<Value>,
    more: usize,
    filler: &Value,
) -> Result<Vec<Value>, Memory>
    ensures { IfOk result (λ vs. views vs.items ≡ views values.items ++ replicate more (view filler.now)) }
{
    let mut filled = values;
    for i in 0..more {
        let copy = filler.copy_of(alloc)?;
        filled.push(copy)?;
    }
    Ok(filled)
}

/// So many of the values, from the place `start` on.
#[tactic(auto, using(crate::proofs::Rows::window_past))]
pub(crate) fn window(values: &[Value], start: usize, length: usize) -> &[Value]
    ensures { views result.now ≡ take length (drop start (views values.now)) }
{
    if values.len() <= start {
        return &[];
    }
    let rest = &values[start..];
    if length < rest.len() {
        &rest[..length]
    } else {
        rest
    }
}

/// Puts a value at a place; a list that ends before gets it behind its last one.
#[tactic(auto, using(crate::proofs::Heap::put_within, crate::proofs::Heap::put_beyond))]
pub(crate) fn put_or_push(values: &mut Vec<Value>, place: u128, value: Value) -> Result<(), Memory>
    ensures put { OnOk result (views values.new.items ≡ put_at place (view value ∷ []) (views values.old.items)) }
    ensures err { OnErr result (values.new.items ≡ values.old.items) }
{
    if place < values.len() as u128 {
        values[place as usize] = value;
    } else {
        values.push(value)?;
    }
    Ok(())
}

/// Puts values one behind the other from a place on, over those that stand there; a list that ends before gets them behind its
/// last one. No other value is moved.
#[tactic(auto, using(crate::proofs::Appending::put_inside, crate::proofs::Appending::put_last, crate::proofs::Appending::put_behind))]
pub(crate) fn put_all(values: &mut Vec<Value>, place: u128, new: Vec<Value>) -> Result<(), Memory>
    requires { place < 2 ^ 66 }
    ensures put { OnOk result (views values.new.items ≡ put_at place (views new.items) (views values.old.items)) }
    ensures err { OnErr result (values.new.items ≡ values.old.items) }
{
    let mut new = new;
    if values.len() as u128 <= place {
        values.append(&mut new)?;
        return Ok(());
    }
    let start = place as usize;
    if new.len() <= values.len() - start {
        overwrite(values, start, new);
        return Ok(());
    }
    values.reserve(new.len())?;
    values.truncate(start);
    values.append(&mut new)?;
    Ok(())
}

/// Writes values over those that stand from a place on.
#[tactic(auto, using(crate::proofs::Appending::put_inside))]
fn overwrite(values: &mut Vec<Value>, start: usize, new: Vec<Value>)
    requires { start + length new.items ≤ length values.old.items }
    ensures { views values.new.items ≡ put_at start (views new.items) (views values.old.items) }
{
    let mut new = new;
    let end = start + new.len();
    values.as_mut_slice()[start..end].swap_with_slice(new.as_mut_slice());
}

/// The one values and then the other ones.
#[tactic(auto, using(crate::proofs::Appending::views_append))]
pub(crate) fn joined(values: Vec<Value>, more: Vec<Value>) -> Result<Vec<Value>, Memory>
    ensures { IfOk result (λ vs. views vs.items ≡ views values.items ++ views more.items) }
{
    let mut joined = values;
    let mut more = more;
    joined.append(&mut more)?;
    Ok(joined)
}
