//! The objects of a package with their types and values.

ghost use Rattle.std.specs.Prelude.{◌≡◌, length, map, slice_get};
ghost use Rattle.std.specs.Option.{option_map};
ghost use Rattle.go_typed.specs.Scopes.{EnvView};
ghost use Rattle.go_typed.specs.Views.{sort_view};

use crate::form::Referent;
use crate::sort::Sort;
use std::marker::Model;

/// The objects of a package, by their numbers in the order of files and places: what each stands for, and its number among
/// those of its sort.
#[derive(Debug, Drop)]
pub struct Env {
    objects: Vec<Sort>,
    referents: Vec<Referent>,
}

impl Model for Env {
    ghost use Rattle.std.specs.Prelude.{map};
    ghost use Rattle.go_typed.specs.Scopes.{EnvView};
    ghost use Rattle.go_typed.specs.Views.{sort_view};

    ghost Value = { EnvView };

    ghost view = { λ e. record { objects = map sort_view e.objects.items; referents = e.referents.items } };
}

impl Env {
    /// The objects with what they stand for and their numbers.
    pub fn new(objects: Vec<Sort>, referents: Vec<Referent>) -> Env
        ensures { result ≡ record { objects = map sort_view objects.items; referents = referents.items } }
    {
        Env { objects, referents }
    }

    /// How many objects there are.
    pub fn count(&self) -> usize
        ensures { result ≡ length self.now.objects }
    {
        self.objects.len()
    }

    /// What the object of this number stands for, if there are so many.
    pub fn sort(&self, number: usize) -> Option<&Sort>
        ensures { slice_get self.now.objects number ≡ option_map (λ s. sort_view s.now) result }
    {
        self.objects.get(number)
    }

    /// The number of this object among those of its sort, if there are so many.
    pub fn referent(&self, number: usize) -> Option<Referent>
        ensures { slice_get self.now.referents number ≡ result }
    {
        self.referents.get(number).copied()
    }
}
