//! Shapes by number, each once.
ghost use Rattle.std.specs.Prelude.{◌≡◌, ℕ, ◌<◌, ◌≤◌, List, [], Some, IfOk, IfSome, OnErr, length, take, slice_get};
ghost use Rattle.go_types.specs.declared.shape.Field.{Field};
ghost use Rattle.go_types.specs.declared.shape.Shape.{Shape};
ghost use Rattle.go_types.specs.declared.shape.Shape.TheVariants as shapes;
ghost use Rattle.go_types.specs.FieldPlaces.{field_place};
ghost use Rattle.go_types.specs.Shapes.{IsInterned, IsAdded};
ghost use Rattle.go_types.specs.Keys.{key as shape_key};

use crate::keys::key_of;
use crate::placed::PlacedShape;
use crate::shape::Shape;
use go_base::Memory;
use indexmap::IndexMap;
use std::alloc::Global;
use std::marker::Model;

/// Shapes in order, each under its key and with the places of its fields.
#[derive(Drop)]
pub struct Index {
    entries: IndexMap<Vec<u64>, PlacedShape>,
}

impl Model for Index {
    ghost use Rattle.std.specs.Prelude.{◌≡◌, List, map};
    ghost use Rattle.go_types.specs.declared.shape.Shape.{Shape};
    ghost use Rattle.go_types.specs.Keys.{key};

    ghost Value = { List Shape };

    ghost view = { λ s. map (λ e. e.1) s.entries.entries };

    ghost invariant = { λ s. map (λ e. e.0.items) s.entries.entries ≡ map (λ e. key e.1) s.entries.entries };
}

impl Index {
    /// No shapes.
    pub fn new(alloc: Global) -> Index
        ensures { result ≡ [] }
    {
        Index {
            entries: IndexMap::new(alloc),
        }
    }

    /// How many shapes there are.
    pub fn len(&self) -> usize
        ensures { result ≡ length self.now }
    {
        self.entries.len()
    }

    /// The shape of a number.
    pub fn get(&self, number: usize) -> &Shape
        requires { number < length self.now }
        ensures { slice_get self.now number ≡ Some result.now }
    {
        self.placed(number).shape()
    }

    /// The number of the first field of a name in the shape of a number.
    pub fn place(&self, number: usize, name: &[u8]) -> Option<usize>
        requires { number < length self.now }
        ensures place { (s : Shape) → slice_get self.now number ≡ Some s → result ≡ field_place s name.now }
        ensures within { (fs : List Field) → slice_get self.now number ≡ Some (shapes.Struct fs) → IfSome result (λ n. n < length fs) }
    {
        self.placed(number).place(name)
    }

    fn placed(&self, number: usize) -> &PlacedShape
        requires { number < length self.now }
        ensures { slice_get self.now number ≡ Some result.now }
    {
        match self.entries.get_index(number) {
            Some((_, placed)) => placed,
            None => unreachable!(),
        }
    }

    /// The number of a shape; one that isn't there is put last.
    pub fn intern(&mut self, alloc: Global, shape: &Shape) -> Result<usize, Memory>
        ensures number { IfOk result (IsInterned self.old self.new shape.now) }
        ensures err { OnErr result (self.new ≡ self.old) }
    {
        let key = key_of(alloc, shape)?;
        match self.entries.get_index_of(&key) {
            Some(number) => Ok(number),
            None => self.add(key, copy_of(alloc, shape)?),
        }
    }

    /// Puts a shape that isn't there last.
    fn add(&mut self, key: Vec<u64>, shape: PlacedShape) -> Result<usize, Memory>
        requires key { key.items ≡ shape_key shape }
        requires absent { (j : ℕ) → slice_get self.old j ≡ Some shape → ⊥ }
        ensures number { IfOk result (IsAdded self.old self.new shape) }
        ensures err { OnErr result (self.new ≡ self.old) }
    {
        let number = self.entries.len();
        self.entries.insert(key, shape)?;
        Ok(number)
    }

    /// Takes away the shapes from a number on.
    pub fn truncate(&mut self, count: usize)
        ensures { self.new ≡ take count self.old }
    {
        self.entries.truncate(count);
    }
}

fn copy_of(alloc: Global, shape: &Shape) -> Result<PlacedShape, Memory>
    ensures { IfOk result (λ s. s ≡ shape.now) }
{
    PlacedShape::of(alloc, shape.clone()?)
}
