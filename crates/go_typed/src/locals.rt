//! The locals of a function typed so far.

ghost use Rattle.std.specs.Prelude.{◌≡◌, ◌<◌, Some, length, map, slice_get, slice_set};
ghost use Rattle.std.specs.Option.{option_map};
ghost use Rattle.go_typed.specs.Scopes.{local_sort};
ghost use Rattle.go_typed.specs.Views.{sort_view};

use crate::sort::Sort;
use std::marker::Model;

/// What each local of a function stands for, as far as it is typed, by its number in order of declaration; and the value of
/// `iota` (Go specification: Iota).
#[derive(Debug, Drop)]
pub struct Locals {
    sorts: Vec<Option<Sort>>,
    iota: u32,
}

impl Model for Locals {
    ghost use Rattle.std.specs.Prelude.{map};
    ghost use Rattle.std.specs.Option.{option_map};
    ghost use Rattle.go_typed.specs.Scopes.{LocalsView};
    ghost use Rattle.go_typed.specs.Views.{sort_view};

    ghost Value = { LocalsView };

    ghost view = { λ l. record { sorts = map (option_map sort_view) l.sorts.items; iota = l.iota } };
}

impl Locals {
    /// The locals with what they stand for so far, and the value of `iota`.
    pub fn new(sorts: Vec<Option<Sort>>, iota: u32) -> Locals
        ensures { result ≡ record { sorts = map (option_map sort_view) sorts.items; iota = iota } }
    {
        Locals { sorts, iota }
    }

    /// How many locals there are.
    pub fn count(&self) -> usize
        ensures { result ≡ length self.now.sorts }
    {
        self.sorts.len()
    }

    /// What the local of this number stands for; none where it isn't typed so far, or there are not so many.
    pub fn sort(&self, number: usize) -> Option<&Sort>
        ensures { local_sort (slice_get self.now.sorts number) ≡ option_map (λ s. sort_view s.now) result }
    {
        match self.sorts.get(number) {
            Some(Some(sort)) => Some(sort),
            _ => None,
        }
    }

    /// The local of this number stands for this from now on.
    pub fn declare(&mut self, number: usize, sort: Sort)
        requires { number < length self.old.sorts }
        ensures { self.new ≡ record self.old { sorts = slice_set self.old.sorts number (Some (sort_view sort)) } }
    {
        self.sorts[number] = Some(sort);
    }

    /// The value of `iota`.
    pub fn iota(&self) -> u32
        ensures { result ≡ self.now.iota }
    {
        self.iota
    }

    /// `iota` has this value from now on.
    pub fn set_iota(&mut self, iota: u32)
        ensures { self.new ≡ record self.old { iota = iota } }
    {
        self.iota = iota;
    }
}
