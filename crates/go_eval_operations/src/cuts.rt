//! Slice expressions (Go specification, "Simple slice expressions").

#![tactic(auto, using(go_values::proofs::Views::view_nil))]

ghost use Rattle.std.specs.Prelude.{◌≡◌, ◌&&◌, ◌+◌, ◌-◌, ◌≤◌, IfOk, IfSome, length, int_le, is_some, pos, take, drop};
ghost use Rattle.go_meaning.specs.Computations as meaning;
ghost use Rattle.go_meaning.specs.Operations.{Cut, cut, perform};
ghost use Rattle.go_values.specs.Deeds.{IsDone};
ghost use Rattle.go_values.specs.Views.{view, views};
ghost use Rattle.go_eval_operations.specs.Cuts.{limit_of, part_of};

use crate::operands::at;
use go_base::Memory;
use go_constants::SharedBytes;
use go_values::{Panic, Segment, Stop, Value};
use std::alloc::Global;

/// The bounds of a part, where it lies within the limit.
fn bounds(limit: usize, low: i128, high: i128) -> Option<(usize, usize)>
    ensures some { IfSome result (λ s. (low ≡ pos s.0) × ((high ≡ pos s.1) × ((s.0 ≤ s.1) × (s.1 ≤ limit)))) }
    ensures test { is_some result ≡ (int_le (pos 0) low && int_le low high && int_le high (pos limit)) }
{
    if 0 <= low && low <= high && high <= limit as i128 {
        Some((low as usize, high as usize))
    } else {
        None
    }
}

/// The bytes from one place up to another. All bytes are shared, and not copied.
fn part_of_text(
    alloc: Global,
    text: &SharedBytes,
    low: usize,
    high: usize,
) -> Result<SharedBytes, Memory>
    requires order { low ≤ high }
    requires within { high ≤ length text.now }
    ensures { IfOk result (λ b. b ≡ take (high - low) (drop low text.now)) }
{
    let bytes = text.as_slice();
    if low == 0 && high == bytes.len() {
        return text.shared();
    }
    SharedBytes::from_slice(alloc, &bytes[low..high])
}

/// The part of a slice from one place up to another.
fn part_of_slice(segment: Segment, low: usize, high: usize) -> Result<Segment, Memory>
    requires order { low ≤ high }
    requires within { high ≤ segment.capacity }
    ensures { IfOk result (λ s. (s.array ≡ segment.array) × ((s.start ≡ segment.start + low) × ((s.length ≡ high - low) × (s.capacity ≡ segment.capacity - low)))) }
{
    let start = segment.start.checked_add(low).ok_or(Memory)?;
    Ok(Segment {
        array: segment.array,
        start,
        length: high - low,
        capacity: segment.capacity - low,
    })
}

/// How far a part may reach.
fn limit(operand: &Value) -> usize
    ensures { result ≡ limit_of (view operand.now) }
{
    match operand {
        Value::Text(bytes) => bytes.as_slice().len(),
        Value::Slice(segment) => segment.capacity,
        _ => 0,
    }
}

/// The part of a string or slice from one place up to another.
fn part_of(alloc: Global, operand: &Value, low: usize, high: usize) -> Result<Value, Memory>
    requires order { low ≤ high }
    requires within { high ≤ limit_of (view operand.now) }
    ensures { IfOk result (λ v. view v ≡ part_of (view operand.now) low high) }
{
    match operand {
        Value::Text(text) => Ok(Value::Text(part_of_text(alloc, text, low, high)?)),
        Value::Slice(segment) => Ok(Value::Slice(part_of_slice(*segment, low, high)?)),
        _ => Ok(Value::NilSlice),
    }
}

/// The part of a string or slice between two bounds.
fn cut(alloc: Global, operand: &Value, low: i128, high: i128) -> Result<Value, Stop>
    ensures { (w : meaning.World) → IsDone result w (cut (view operand.now) low high w) }
{
    match bounds(limit(operand), low, high) {
        Some((low, high)) => Ok(part_of(alloc, operand, low, high)?),
        None => Err(Stop::Panic(Panic::Slicing)),
    }
}

/// A slice expression: a bound that isn't given is 0, or the length (Go specification, "Simple slice expressions").
///
/// # Errors
///
/// Bounds out of range; want of memory.
pub fn slice_expression(
    alloc: Global,
    low: bool,
    high: bool,
    operands: &[Value],
) -> Result<Value, Stop>
    ensures { (w : meaning.World) → IsDone result w (perform (Cut low high) (views operands.now) w) }
{
    let absent = Value::NilFunction;
    let operand = at(operands, 0, &absent);
    let first = at(operands, 1, &absent).whole();
    let second = at(operands, 2, &absent).whole();
    let length = go_values::length(operand) as i128;
    match (low, high) {
        (true, true) => cut(alloc, operand, first, second),
        (true, false) => cut(alloc, operand, first, length),
        (false, true) => cut(alloc, operand, 0, first),
        (false, false) => cut(alloc, operand, 0, length),
    }
}
