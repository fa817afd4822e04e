//! What an object of the package stands for, by the way in which it is needed.
ghost use Rattle.std.specs.Prelude.{◌≡◌};
ghost use Rattle.go_exprs_types.specs.Naming.{by_need, need_seen};

use go_typed::Sort;

/// How a declaration needs what its names mean (Go specification, "Declarations and scope", "Type declarations").
#[derive(Clone, Copy, Debug)]
pub enum Needed {
    /// With all that the types named need in turn.
    InFull,
    /// In the right side of a type declaration, as it is declared alone.
    AtOnce,
    /// There in a slice's element or a function type, where nothing is needed but that it is declared.
    Loosely,
}

/// What an object of the package stands for where it is needed in full, at once, or loosely.
#[derive(Debug, Drop)]
pub struct Standing {
    pub in_full: Sort,
    pub at_once: Sort,
    pub loosely: Sort,
}

impl Standing {
    /// What it stands for where it is needed so.
    pub fn sort(&self, need: Needed) -> &Sort
        ensures { result.now ≡ by_need self.now.in_full self.now.at_once self.now.loosely (need_seen need) }
    {
        match need {
            Needed::InFull => &self.in_full,
            Needed::AtOnce => &self.at_once,
            Needed::Loosely => &self.loosely,
        }
    }
}
