//! Strings.

ghost use Rattle.std.specs.Prelude.{◌≡◌, [], ◌∷◌, IfOk, OnErr};
ghost use Rattle.go_meaning.specs.Computations as meaning;
ghost use Rattle.go_meaning.specs.Operations.{Byte, BytesOfText, Join, Gives, bytes_as_values, perform};
ghost use Rattle.go_values.specs.Views.{view, views};
ghost use Rattle.go_values.specs.Deeds.{deed};
ghost use Rattle.go_values.specs.Worlds.{world_view};

use crate::panic::Panic;
use crate::parts::place_of;
use crate::value::Value;
use crate::world::World;
use go_base::Memory;
use go_constants::SharedBytes;
use std::alloc::Global;

/// Two strings joined (Go specification, "String concatenation").
///
/// # Errors
///
/// Want of memory.
pub fn join(alloc: Global, a: &Value, b: &Value) -> Result<Value, Memory>
    ensures { IfOk result (λ v. (w : meaning.World) → perform Join (view a.now ∷ view b.now ∷ []) w ≡ Gives (view v ∷ []) w) }
{
    let joined = SharedBytes::joined(alloc, a.text(), b.text())?;
    Ok(Value::Text(joined))
}

/// A byte of a string (Go specification, "Index expressions").
///
/// # Errors
///
/// An index out of range.
pub fn byte(text: &Value, index: &Value) -> Result<Value, Panic>
    ensures { (w : meaning.World) → perform Byte (view text.now ∷ view index.now ∷ []) w ≡ deed w result }
{
    let bytes = text.text();
    let place = place_of(index, bytes.len())?;
    Ok(Value::Whole(bytes[place] as i128))
}

/// The values of bytes.
pub(crate) fn values_of(alloc: Global, bytes: &[u8]) -> Result<Vec<Value>, Memory>
    ensures { IfOk result (λ vs. views vs.items ≡ bytes_as_values bytes.now) }
{
    let mut values = Vec::with_capacity(alloc, bytes.len())?;
    for byte in bytes {
        values.push(Value::Whole(*byte as i128))?;
    }
    Ok(values)
}

impl World {
    /// A slice of the bytes of a string (Go specification, "Conversions to and from a string type"). Where memory is wanting the
    /// world stays as it was.
    ///
    /// # Errors
    ///
    /// Want of memory.
    pub fn bytes_of_text(&mut self, alloc: Global, text: &Value) -> Result<Value, Memory>
        ensures value { IfOk result (λ v. perform BytesOfText (view text.now ∷ []) (world_view self.old) ≡ Gives (view v ∷ []) (world_view self.new)) }
        ensures err { OnErr result (world_view self.new ≡ world_view self.old) }
    {
        let values = values_of(alloc, text.text())?;
        let capacity = text.text().len();
        self.new_slice(alloc, values, capacity, &Value::Whole(0))
    }
}
