//! Places that are taken, with the one that reaches furthest.

ghost use Rattle.std.specs.Prelude.{◌≡◌, [], ◌∷◌, ◌++◌, OnOk};
ghost use Rattle.std.specs.List.{list_any};
ghost use Rattle.clone_classes.specs.Choices.{meets};
ghost use Rattle.clone_classes.specs.Ends.{further};

use crate::place::Place;
use go_base::Memory;
use std::alloc::Global;
use std::marker::Model;

/// Places that are taken, in the order in which they were.
#[derive(Debug, Drop)]
pub(crate) struct Taken {
    places: Vec<Place>,
    /// The one that reaches furthest, by function and token.
    end: Option<Place>,
}

impl Model for Taken {
    ghost use Rattle.std.specs.Prelude.{List};
    ghost use Rattle.clone_classes.specs.declared.place.Place.{Place};
    ghost use Rattle.clone_classes.specs.Ends.{EndsAt};

    ghost Value = { List Place };

    ghost view = { λ t. t.places.items };

    ghost invariant = { λ t. EndsAt t.end t.places.items };
}

impl Taken {
    /// None is taken.
    pub(crate) fn new(alloc: Global) -> Taken
        ensures { result ≡ [] }
    {
        Taken {
            places: Vec::new(alloc),
            end: None,
        }
    }

    /// Whether a place shares a token with one that is taken. In order of functions and first tokens the end alone tells it.
    pub(crate) fn meets(&self, place: Place) -> bool
        ensures { result ≡ list_any (meets place) self.now }
    {
        match self.end {
            None => false,
            Some(end) => place.meets(end)
                || (!place.is_behind(end) && place.meets_any(&self.places)),
        }
    }

    /// Takes a place.
    pub(crate) fn push(&mut self, place: Place) -> Result<(), Memory>
        ensures taken { OnOk result (self.new ≡ self.old ++ place ∷ []) }
    {
        let end = further(self.end, place);
        self.places.push(place)?;
        self.end = Some(end);
        Ok(())
    }
}

/// The one of two places that reaches further.
fn further(end: Option<Place>, place: Place) -> Place
    ensures { result ≡ further end place }
{
    match end {
        Some(end) if end.reaches(place) => end,
        _ => place,
    }
}
