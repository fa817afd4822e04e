//! The world: what calls share.

ghost use Rattle.std.specs.Prelude.{◌≡◌, [], ◌∷◌, IfOk};
ghost use Rattle.go_meaning.specs.Values as meant;
ghost use Rattle.go_meaning.specs.Operations.{ReadVariable, WriteVariable, ReadByte, Gives, perform};
ghost use Rattle.go_meaning.specs.Meaning.{Program, start};
ghost use Rattle.go_values.specs.Views.{view, views};
ghost use Rattle.go_values.specs.Worlds.{world_view};

use crate::lists::{copy_at, filled, put};
use crate::parts::taken;
use crate::value::Value;
use go_base::Memory;
use std::alloc::Global;

/// What calls share: the arrays of slices, the package's variables, the input that is left and the output so far.
#[derive(Drop)]
pub struct World {
    pub(crate) arrays: Vec<Vec<Value>>,
    variables: Vec<Value>,
    input: Vec<u8>,
    /// How many bytes of the input are read.
    read: usize,
    pub(crate) output: Vec<u8>,
}

impl World {
    /// The world in which a run begins, for a package with so many variables and this input.
    ///
    /// # Errors
    ///
    /// Want of memory.
    pub fn new(alloc: Global, count: usize, input: Vec<u8>) -> Result<World, Memory>
        ensures { IfOk result (λ w. (P : Program) → P.count ≡ count → world_view w ≡ start P input.items) }
    {
        let variables = filled(alloc, Vec::new(alloc), count, &Value::NilFunction)?;
        Ok(World {
            arrays: Vec::new(alloc),
            variables,
            input,
            read: 0,
            output: Vec::new(alloc),
        })
    }

    /// What was printed so far.
    pub fn output(&self) -> &[u8]
        ensures { result.now ≡ (world_view self.now).output }
    {
        &self.output
    }

    /// A copy of a variable of the package; a nil function where it has none of the number.
    ///
    /// # Errors
    ///
    /// Want of memory.
    pub fn read_variable(&self, alloc: Global, number: usize) -> Result<Value, Memory>
        ensures { IfOk result (λ v. perform (ReadVariable number) [] (world_view self.now) ≡ Gives (view v ∷ []) (world_view self.now)) }
    {
        copy_at(alloc, &self.variables, number as u128)
    }

    /// Takes the value of a variable of the package out, which serves to change it without a copy. The variable is to be assigned
    /// next: that does the same as before.
    pub fn take_variable(&mut self, number: usize) -> Value
        ensures taken { perform (ReadVariable number) [] (world_view self.old) ≡ Gives (view result ∷ []) (world_view self.old) }
        ensures left { (v : meant.Value) → perform (WriteVariable number) (v ∷ []) (world_view self.new) ≡ perform (WriteVariable number) (v ∷ []) (world_view self.old) }
    {
        taken(&mut self.variables, number as u128)
    }

    /// Assigns to a variable of the package (Go specification, "Assignment statements").
    pub fn write_variable(&mut self, number: usize, value: Value)
        ensures { perform (WriteVariable number) (view value ∷ []) (world_view self.old) ≡ Gives [] (world_view self.new) }
    {
        put(&mut self.variables, number as u128, value);
    }

    /// The next byte of the input, or -1 at its end.
    pub fn read_byte(&mut self) -> Value
        ensures { perform ReadByte [] (world_view self.old) ≡ Gives (view result ∷ []) (world_view self.new) }
    {
        if self.read < self.input.len() {
            let byte = self.input[self.read];
            self.read += 1;
            Value::Whole(byte as i128)
        } else {
            Value::Whole(-1)
        }
    }
}
