//! Shapes, each with the places of its fields by their names.
ghost use Rattle.std.specs.Prelude.{◌≡◌, ℕ, ◌<◌, List, None, Some, if◌then◌else◌, nat_eq, IfOk, IfSome, OnOk, length};
ghost use Rattle.std.specs.Cmp.Lexicographic.{pointwise};
ghost use Rattle.std.specs.Option.{option_or};
ghost use Rattle.go_types.specs.declared.shape.Field.{Field};
ghost use Rattle.go_types.specs.declared.shape.Shape.TheVariants as shapes;
ghost use Rattle.go_types.specs.FieldPlaces.{place_from, field_names, field_place, entry_of, HavePlaces};

use crate::shape::{Field, Shape};
use go_base::Memory;
use indexmap::IndexMap;
use std::alloc::Global;
use std::marker::Model;

/// A shape, with the number of the first field of each name.
#[derive(Drop)]
pub struct PlacedShape {
    shape: Shape,
    places: IndexMap<Vec<u8>, usize>,
}

impl Model for PlacedShape {
    ghost use Rattle.go_types.specs.declared.shape.Shape.{Shape};
    ghost use Rattle.go_types.specs.FieldPlaces.{HavePlaces};

    ghost Value = { Shape };

    ghost view = { λ p. p.shape };

    ghost invariant = { λ p. HavePlaces (λ k. k.items) p.places.entries p.shape };
}

impl PlacedShape {
    /// A shape with its places.
    pub fn of(alloc: Global, shape: Shape) -> Result<PlacedShape, Memory>
        ensures { IfOk result (λ p. p ≡ shape) }
    {
        let places = shape_places(alloc, &shape)?;
        Ok(PlacedShape { shape, places })
    }

    /// The shape.
    pub fn shape(&self) -> &Shape
        ensures { result.now ≡ self.now }
    {
        &self.shape
    }

    /// The number of the first field of a name.
    pub fn place(&self, name: &[u8]) -> Option<usize>
        ensures place { result ≡ field_place self.now name.now }
        ensures within { (fs : List Field) → self.now ≡ shapes.Struct fs → IfSome result (λ n. n < length fs) }
    {
        self.places.get(name).copied()
    }
}

/// The places of the fields of a shape.
fn shape_places(alloc: Global, shape: &Shape) -> Result<IndexMap<Vec<u8>, usize>, Memory>
    ensures { IfOk result (λ m. HavePlaces (λ k. k.items) m.entries shape.now) }
{
    match shape {
        Shape::Struct { fields } => places_of(alloc, fields.as_slice()),
        _ => Ok(IndexMap::new(alloc)),
    }
}

/// The number of the first field of each name.
#[tactic(auto, using(crate::proofs::FieldPlacing::place_step))]
fn places_of(alloc: Global, fields: &[Field]) -> Result<IndexMap<Vec<u8>, usize>, Memory>
    ensures { IfOk result (λ m. (name : List ℕ) → entry_of (λ k. k.items) m.entries name ≡ place_from 0 (field_names fields.now) name) }
{
    let mut places = IndexMap::new(alloc);
    for (number, field) in fields.iter().enumerate() {
        note(alloc, &mut places, field.name.as_slice(), number)?;
    }
    Ok(places)
}

/// Gives a name its number, if it has none yet.
fn note(
    alloc: Global,
    places: &mut IndexMap<Vec<u8>, usize>,
    name: &[u8],
    number: usize,
) -> Result<(), Memory>
    ensures { OnOk result ((w : List ℕ) → entry_of (λ k. k.items) places.new.entries w ≡ option_or (entry_of (λ k. k.items) places.old.entries w) (if pointwise nat_eq w name.now then Some number else None)) }
{
    if !places.contains_key(name) {
        places.insert(Vec::from_slice(alloc, name)?, number)?;
    }
    Ok(())
}
