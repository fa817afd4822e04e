//! Operations on strings.

#![tactic(auto, using(go_values::proofs::Views::view_nil))]

ghost use Rattle.std.specs.Prelude.{◌≡◌, [], ◌∷◌, IfOk, IfSome, OnErr};
ghost use Rattle.std.specs.Char.{encode_utf8};
ghost use Rattle.go_meaning.specs.Computations as meaning;
ghost use Rattle.go_meaning.specs.Operations.{Byte, BytesOfText, Gives, Join, TextOfBytes, TextOfCode, perform};
ghost use Rattle.go_meaning.specs.Texts.{code_point};
ghost use Rattle.go_meaning.specs.Values.{byte_of};
ghost use Rattle.go_values.specs.Deeds.{deed};
ghost use Rattle.go_values.specs.Views.{view, views};
ghost use Rattle.go_values.specs.Worlds.{world_view};

use crate::operands::at;
use go_base::Memory;
use go_constants::SharedBytes;
use go_values::{Panic, Value, World};
use std::alloc::Global;

/// Two strings joined (Go specification, "String concatenation").
///
/// # Errors
///
/// Want of memory.
pub fn join(alloc: Global, operands: &[Value]) -> Result<Value, Memory>
    ensures { IfOk result (λ v. (w : meaning.World) → perform Join (views operands.now) w ≡ Gives (view v ∷ []) w) }
{
    let absent = Value::NilFunction;
    let left = at(operands, 0, &absent);
    let right = at(operands, 1, &absent);
    go_values::join(alloc, left, right)
}

/// A byte of a string (Go specification, "Index expressions").
///
/// # Errors
///
/// An index out of range.
pub fn byte(operands: &[Value]) -> Result<Value, Panic>
    ensures { (w : meaning.World) → perform Byte (views operands.now) w ≡ deed w result }
{
    let absent = Value::NilFunction;
    let text = at(operands, 0, &absent);
    let index = at(operands, 1, &absent);
    go_values::byte(text, index)
}

/// The code point of a number, or U+FFFD where it is none.
fn code_point(number: i128) -> char
    ensures { result ≡ code_point number }
{
    match u32::try_from(number) {
        Ok(code) => char::from_u32(code).unwrap_or('\u{FFFD}'),
        Err(_) => '\u{FFFD}',
    }
}

/// The string of an integer (Go specification, "Conversions to and from a string type").
///
/// # Errors
///
/// Want of memory.
pub fn text_of_code(alloc: Global, operands: &[Value]) -> Result<Value, Memory>
    ensures { IfOk result (λ v. (w : meaning.World) → perform TextOfCode (views operands.now) w ≡ Gives (view v ∷ []) w) }
{
    let absent = Value::NilFunction;
    let number = at(operands, 0, &absent).whole();
    let mut buffer = [0; 4];
    let text = code_point(number).encode_utf8(&mut buffer);
    let bytes = SharedBytes::from_slice(alloc, text.as_bytes())?;
    Ok(Value::Text(bytes))
}

/// The byte that a value is.
fn byte_of(value: &Value) -> u8
    ensures { result ≡ byte_of (view value.now) }
{
    let number = value.whole();
    if number < 0 { 0 } else { (number % 256) as u8 }
}

/// The string of a slice of bytes (Go specification, "Conversions to and from a string type").
///
/// # Errors
///
/// Want of memory.
pub fn text_of_bytes(alloc: Global, world: &World, operands: &[Value]) -> Result<Value, Memory>
    ensures { IfOk result (λ v. perform TextOfBytes (views operands.now) (world_view world.now) ≡ Gives (view v ∷ []) (world_view world.now)) }
{
    let absent = Value::NilFunction;
    let contents = world.contents(at(operands, 0, &absent));
    let mut bytes = Vec::with_capacity(alloc, contents.len())?;
    for value in contents {
        bytes.push(byte_of(value))?;
    }
    Ok(Value::Text(SharedBytes::of(bytes)?))
}

/// A slice of the bytes of a string (Go specification, "Conversions to and from a string type").
///
/// # Errors
///
/// Want of memory.
pub fn bytes_of_text(alloc: Global, world: &mut World, operands: &[Value]) -> Result<Value, Memory>
    ensures value { IfOk result (λ v. perform BytesOfText (views operands.now) (world_view world.old) ≡ Gives (view v ∷ []) (world_view world.new)) }
    ensures err { OnErr result (world_view world.new ≡ world_view world.old) }
{
    let absent = Value::NilFunction;
    world.bytes_of_text(alloc, at(operands, 0, &absent))
}
