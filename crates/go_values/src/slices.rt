//! Slices and their arrays (Go specification, "Slice types").

ghost use Rattle.std.specs.Prelude.{◌≡◌, ◌&&◌, ◌+◌, ◌*◌, ◌^◌, ◌<◌, ◌≤◌, ◌++◌, max, [], ◌∷◌, IfOk, IfSome, IfNone, OnOk, OnErr, get_or, int_le, is_some, length, pos, slice_set, take};
ghost use Rattle.go_types_relations.specs.Zeros.{Zero};
ghost use Rattle.go_meaning.specs.Values as meant;
ghost use Rattle.go_meaning.specs.Values.{NilFunction, Slice, nth, whole_of, zero_value};
ghost use Rattle.go_meaning.specs.Operations.{Append, Cell, Copy, Gather, Gives, SetCell, array_at, capacity_of, cell, contents, length_of, longer, made, new_slice, perform, put_at, source, with_cells};
ghost use Rattle.go_values.specs.Views.{view, views};
ghost use Rattle.go_values.specs.Worlds.{array_views, world_view};
ghost use Rattle.go_values.specs.Deeds.{IsDone, IsStored, deed};

use crate::lists::{copy_at, filled, joined, put_all, put_or_push, window};
use crate::panic::{Panic, Stop};
use crate::parts::{place_of, taken};
use crate::texts::values_of;
use crate::value::{Segment, Value, copies_of};
use crate::world::World;
use go_base::Memory;
use std::alloc::Global;

/// The most elements of a slice that `make` makes.
const MOST_ELEMENTS: i128 = 1 << 24;

/// The length of a string, an array or a slice (Go specification, "Length and capacity").
pub fn length(value: &Value) -> usize
    ensures { result ≡ length_of (view value.now) }
{
    match value {
        Value::Slice(segment) => segment.length,
        Value::Text(bytes) => bytes.as_slice().len(),
        Value::Parts(parts) => parts.as_ref().as_slice().len(),
        _ => 0,
    }
}

/// The capacity of a slice, or the length of a string or an array (Go specification, "Length and capacity").
pub fn capacity(value: &Value) -> usize
    ensures { result ≡ capacity_of (view value.now) }
{
    match value {
        Value::Slice(segment) => segment.capacity,
        Value::Text(_) | Value::Parts(_) => length(value),
        _ => 0,
    }
}

/// The length and the capacity of a slice that `make` makes, where it doesn't panic.
fn sizes_of(length: i128, capacity: i128) -> Option<(usize, usize)>
    ensures some { IfSome result (λ s. (length ≡ pos s.0) × (capacity ≡ pos s.1)) }
    ensures test { is_some result ≡ (int_le (pos 0) length && int_le length capacity && int_le capacity (pos 16777216)) }
{
    if 0 <= length && length <= capacity && capacity <= MOST_ELEMENTS {
        Some((length as usize, capacity as usize))
    } else {
        None
    }
}

/// The capacity of a new array for the elements of a slice and these values.
fn capacity_for(slice: &Value, values: &[Value]) -> Result<usize, Memory>
    ensures { IfOk result (λ n. n ≡ max (length_of (view slice.now) + length values.now) (2 * capacity_of (view slice.now))) }
{
    let needed = length(slice).checked_add(values.len()).ok_or(Memory)?;
    let doubled = capacity(slice).checked_mul(2).ok_or(Memory)?;
    Ok(needed.max(doubled))
}

/// Where a slice lies that has room for these values.
fn room(slice: &Value, values: &[Value]) -> Option<Segment>
    ensures some { IfSome result (λ s. (view slice.now ≡ Slice s.array s.start s.length s.capacity) × (s.length + length values.now ≤ s.capacity)) }
    ensures none { IfNone result (0 < length values.now → capacity_of (view slice.now) < length_of (view slice.now) + length values.now) }
{
    match slice {
        Value::Slice(segment) => {
            let needed = segment.length as u128 + values.len() as u128;
            if needed <= segment.capacity as u128 {
                Some(*segment)
            } else {
                None
            }
        }
        _ => None,
    }
}

/// Puts a value into one of the arrays; an array that ends before the place gets it behind its last one.
#[tactic(auto, using(crate::proofs::Arrays::arrays_set, crate::proofs::Arrays::array_within, crate::proofs::Arrays::arrays_beyond, crate::proofs::Arrays::same_array))]
fn put_in(
    arrays: &mut Vec<Vec<Value>>,
    array: usize,
    place: u128,
    value: Value,
) -> Result<(), Memory>
    ensures put { OnOk result (array_views arrays.new.items ≡ slice_set (array_views arrays.old.items) array (put_at place (view value ∷ []) (get_or (array_views arrays.old.items) array []))) }
    ensures err { OnErr result (array_views arrays.new.items ≡ array_views arrays.old.items) }
{
    if array < arrays.len() {
        put_or_push(&mut arrays[array], place, value)?;
    }
    Ok(())
}

/// Takes a value out of one of the arrays, and leaves a nil function.
#[tactic(auto, using(crate::proofs::Arrays::arrays_set, crate::proofs::Arrays::array_within, crate::proofs::Arrays::arrays_beyond, crate::proofs::Views::view_nil, crate::proofs::Arrays::none_there))]
fn take_in(arrays: &mut Vec<Vec<Value>>, array: usize, place: u128) -> Value
    ensures taken { view result ≡ nth (get_or (array_views arrays.old.items) array []) place }
    ensures left { array_views arrays.new.items ≡ slice_set (array_views arrays.old.items) array (slice_set (get_or (array_views arrays.old.items) array []) place NilFunction) }
{
    if array < arrays.len() {
        taken(&mut arrays[array], place)
    } else {
        Value::NilFunction
    }
}

/// Puts values into one of the arrays, one behind the other from a place on.
#[tactic(auto, using(crate::proofs::Arrays::arrays_set, crate::proofs::Arrays::array_within, crate::proofs::Arrays::arrays_beyond, crate::proofs::Arrays::same_array))]
fn put_all_in(
    arrays: &mut Vec<Vec<Value>>,
    array: usize,
    place: u128,
    new: Vec<Value>,
) -> Result<(), Memory>
    requires { place < 2 ^ 66 }
    ensures put { OnOk result (array_views arrays.new.items ≡ slice_set (array_views arrays.old.items) array (put_at place (views new.items) (get_or (array_views arrays.old.items) array []))) }
    ensures err { OnErr result (array_views arrays.new.items ≡ array_views arrays.old.items) }
{
    if array < arrays.len() {
        put_all(&mut arrays[array], place, new)?;
    }
    Ok(())
}

/// The first values of what `copy` reads, so many of them.
fn copied_values(
    alloc: Global,
    world: &World,
    origin: &Value,
    count: usize,
) -> Result<Vec<Value>, Memory>
    ensures { IfOk result (λ vs. views vs.items ≡ take count (source (view origin.now) (world_view world.now))) }
{
    match origin {
        Value::Text(bytes) => values_of(alloc, first_bytes(bytes.as_slice(), count)),
        _ => copies_of(alloc, window(world.contents(origin), 0, count)),
    }
}

fn first_bytes(bytes: &[u8], count: usize) -> &[u8]
    ensures { result.now ≡ take count bytes.now }
{
    if count < bytes.len() {
        &bytes[..count]
    } else {
        bytes
    }
}

impl World {
    /// The elements of an array.
    fn array(&self, number: usize) -> &[Value]
        ensures { views result.now ≡ array_at (world_view self.now) number }
    {
        if number < self.arrays.len() {
            self.arrays[number].as_slice()
        } else {
            &[]
        }
    }

    /// The elements of a slice; none of what is no slice.
    pub fn contents(&self, slice: &Value) -> &[Value]
        ensures { views result.now ≡ contents (view slice.now) (world_view self.now) }
    {
        match slice {
            Value::Slice(segment) => {
                window(self.array(segment.array), segment.start, segment.length)
            }
            _ => &[],
        }
    }

    /// A copy of an element of a slice, by its place there; a nil function where there is none.
    ///
    /// # Errors
    ///
    /// Want of memory.
    pub fn copy_cell(&self, alloc: Global, slice: &Value, place: usize) -> Result<Value, Memory>
        ensures { IfOk result (λ v. view v ≡ cell (view slice.now) place (world_view self.now)) }
    {
        match slice {
            Value::Slice(segment) => {
                let place = segment.start as u128 + place as u128;
                copy_at(alloc, self.array(segment.array), place)
            }
            _ => Ok(Value::NilFunction),
        }
    }

    /// A copy of an element of a slice (Go specification, "Index expressions").
    ///
    /// # Errors
    ///
    /// An index out of range; want of memory.
    pub fn cell(&self, alloc: Global, slice: &Value, index: &Value) -> Result<Value, Stop>
        ensures { IsDone result (world_view self.now) (perform Cell (view slice.now ∷ view index.now ∷ []) (world_view self.now)) }
    {
        let place = place_of(index, length(slice))?;
        Ok(self.copy_cell(alloc, slice, place)?)
    }

    /// A slice of a new array of these values, and of copies of the filler up to the capacity (Go specification, "Making
    /// slices, maps and channels"). Where memory is wanting the world stays as it was.
    ///
    /// # Errors
    ///
    /// Want of memory.
    pub fn new_slice(
        &mut self,
        alloc: Global,
        values: Vec<Value>,
        capacity: usize,
        filler: &Value,
    ) -> Result<Value, Memory>
        ensures value { IfOk result (λ v. new_slice (views values.items) capacity (view filler.now) (world_view self.old) ≡ Gives (view v ∷ []) (world_view self.new)) }
        ensures err { OnErr result (world_view self.new ≡ world_view self.old) }
    {
        let length = values.len();
        let values = filled(alloc, values, capacity.saturating_sub(length), filler)?;
        let array = self.arrays.len();
        self.arrays.push(values)?;
        Ok(Value::Slice(Segment {
            array,
            start: 0,
            length,
            capacity,
        }))
    }

    /// A slice of a new array of these values (Go specification, "Composite literals"). Where memory is wanting the world
    /// stays as it was.
    ///
    /// # Errors
    ///
    /// Want of memory.
    pub fn gather(&mut self, alloc: Global, values: Vec<Value>) -> Result<Value, Memory>
        ensures value { IfOk result (λ v. perform Gather (views values.items) (world_view self.old) ≡ Gives (view v ∷ []) (world_view self.new)) }
        ensures err { OnErr result (world_view self.new ≡ world_view self.old) }
    {
        let capacity = values.len();
        self.new_slice(alloc, values, capacity, &Value::NilFunction)
    }

    /// Assigns to an element of a slice (Go specification, "Assignment statements"). Where it panics, or memory is wanting, the
    /// world stays as it was. Memory can be wanting only for a slice that is longer than its array.
    ///
    /// # Errors
    ///
    /// An index out of range; want of memory.
    pub fn set_cell(&mut self, slice: &Value, index: &Value, value: Value) -> Result<(), Stop>
        ensures { IsStored result (perform SetCell (view slice.now ∷ view index.now ∷ view value ∷ []) (world_view self.old)) (world_view self.old) (world_view self.new) }
    {
        let place = place_of(index, length(slice))?;
        Ok(self.put_cell(slice, place, value)?)
    }

    /// Takes an element of a slice out, which serves to change it without a copy. The element is to be assigned next: that does
    /// the same as before. Where it panics the world stays as it was.
    ///
    /// # Errors
    ///
    /// An index out of range.
    pub fn take_cell(&mut self, slice: &Value, index: &Value) -> Result<Value, Panic>
        ensures taken { perform Cell (view slice.now ∷ view index.now ∷ []) (world_view self.old) ≡ deed (world_view self.old) result }
        ensures left { (v : meant.Value) → perform SetCell (view slice.now ∷ view index.now ∷ v ∷ []) (world_view self.new) ≡ perform SetCell (view slice.now ∷ view index.now ∷ v ∷ []) (world_view self.old) }
    {
        let place = place_of(index, length(slice))?;
        Ok(self.take_from(slice, place))
    }

    fn take_from(&mut self, slice: &Value, place: usize) -> Value
        ensures taken { view result ≡ cell (view slice.now) place (world_view self.old) }
        ensures left { (v : meant.Value) → with_cells (view slice.now) place (v ∷ []) (world_view self.new) ≡ with_cells (view slice.now) place (v ∷ []) (world_view self.old) }
    {
        match slice {
            Value::Slice(segment) => {
                let place = segment.start as u128 + place as u128;
                take_in(&mut self.arrays, segment.array, place)
            }
            _ => Value::NilFunction,
        }
    }

    fn put_cell(&mut self, slice: &Value, place: usize, value: Value) -> Result<(), Memory>
        ensures value { OnOk result (world_view self.new ≡ with_cells (view slice.now) place (view value ∷ []) (world_view self.old)) }
        ensures err { OnErr result (world_view self.new ≡ world_view self.old) }
    {
        match slice {
            Value::Slice(segment) => {
                let place = segment.start as u128 + place as u128;
                put_in(&mut self.arrays, segment.array, place, value)
            }
            _ => Ok(()),
        }
    }

    /// `make` of a slice, with copies of the zero value of its elements (Go specification, "Making slices, maps and channels").
    /// Where it panics, or memory is wanting, the world stays as it was.
    ///
    /// # Errors
    ///
    /// A length or a capacity that is negative, a length above the capacity, more than 2^24 elements; want of memory.
    pub fn make_slice(
        &mut self,
        alloc: Global,
        zero: &Value,
        length: &Value,
        capacity: &Value,
    ) -> Result<Value, Stop>
        ensures value { (z : Zero) → zero_value z ≡ view zero.now → IsDone result (world_view self.new) (made z (whole_of (view length.now)) (whole_of (view capacity.now)) (world_view self.old)) }
        ensures err { OnErr result (world_view self.new ≡ world_view self.old) }
    {
        match sizes_of(length.whole(), capacity.whole()) {
            Some((length, capacity)) => {
                let values = filled(alloc, Vec::new(alloc), length, zero)?;
                Ok(self.new_slice(alloc, values, capacity, zero)?)
            }
            None => Err(Stop::Panic(Panic::Make)),
        }
    }

    /// `append` within the capacity: the values are written behind the last element.
    fn append_within(&mut self, segment: Segment, values: Vec<Value>) -> Result<Value, Memory>
        requires { segment.length + length values.items ≤ segment.capacity }
        ensures value { IfOk result (λ v. view v ≡ longer (Slice segment.array segment.start segment.length segment.capacity) (length values.items)) }
        ensures world { OnOk result (world_view self.new ≡ with_cells (Slice segment.array segment.start segment.length segment.capacity) segment.length (views values.items) (world_view self.old)) }
        ensures err { OnErr result (world_view self.new ≡ world_view self.old) }
    {
        let length = segment.length + values.len();
        let place = segment.start as u128 + segment.length as u128;
        put_all_in(&mut self.arrays, segment.array, place, values)?;
        Ok(Value::Slice(Segment { length, ..segment }))
    }

    /// `append` above the capacity: a new array gets copies of the elements, and then the values.
    fn append_anew(
        &mut self,
        alloc: Global,
        zero: &Value,
        slice: &Value,
        values: Vec<Value>,
    ) -> Result<Value, Memory>
        ensures value { IfOk result (λ v. new_slice (contents (view slice.now) (world_view self.old) ++ views values.items) (max (length_of (view slice.now) + length values.items) (2 * capacity_of (view slice.now))) (view zero.now) (world_view self.old) ≡ Gives (view v ∷ []) (world_view self.new)) }
        ensures err { OnErr result (world_view self.new ≡ world_view self.old) }
    {
        let capacity = capacity_for(slice, values.as_slice())?;
        let elements = copies_of(alloc, self.contents(slice))?;
        let all = joined(elements, values)?;
        self.new_slice(alloc, all, capacity, zero)
    }

    /// `append` (Go specification, "Appending to and copying slices"): in place where the capacity allows, else in a new array
    /// whose capacity is the greater of what is needed and twice the old one, with copies of the zero value behind the elements. Where
    /// memory is wanting the world stays as it was.
    ///
    /// # Errors
    ///
    /// Want of memory.
    pub fn append(
        &mut self,
        alloc: Global,
        zero: &Value,
        slice: Value,
        values: Vec<Value>,
    ) -> Result<Value, Memory>
        ensures value { (z : Zero) → zero_value z ≡ view zero.now → IfOk result (λ v. perform (Append z) (view slice ∷ views values.items) (world_view self.old) ≡ Gives (view v ∷ []) (world_view self.new)) }
        ensures err { OnErr result (world_view self.new ≡ world_view self.old) }
    {
        if values.as_slice().is_empty() {
            return Ok(slice);
        }
        match room(&slice, values.as_slice()) {
            Some(segment) => self.append_within(segment, values),
            None => self.append_anew(alloc, zero, &slice, values),
        }
    }

    fn put_cells(&mut self, slice: &Value, values: Vec<Value>) -> Result<(), Memory>
        ensures value { OnOk result (world_view self.new ≡ with_cells (view slice.now) 0 (views values.items) (world_view self.old)) }
        ensures err { OnErr result (world_view self.new ≡ world_view self.old) }
    {
        match slice {
            Value::Slice(segment) => {
                put_all_in(
                    &mut self.arrays,
                    segment.array,
                    segment.start as u128,
                    values,
                )
            }
            _ => Ok(()),
        }
    }

    /// `copy` (Go specification, "Appending to and copying slices"): as many elements as the shorter of the two has, all read
    /// before one is written. It gives their number. Where memory is wanting the world stays as it was.
    ///
    /// # Errors
    ///
    /// Want of memory.
    pub fn copy(&mut self, alloc: Global, target: &Value, source: &Value) -> Result<Value, Memory>
        ensures value { IfOk result (λ v. perform Copy (view target.now ∷ view source.now ∷ []) (world_view self.old) ≡ Gives (view v ∷ []) (world_view self.new)) }
        ensures err { OnErr result (world_view self.new ≡ world_view self.old) }
    {
        let count = length(target).min(length(source));
        let values = copied_values(alloc, self, source, count)?;
        self.put_cells(target, values)?;
        Ok(Value::Whole(count as i128))
    }
}
