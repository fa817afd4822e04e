//! Masses, windows and sameness of worked examples.

ghost use Rattle.clone_window.specs.Examples.{Examples};

/// What the definitions say of some trees, worked out by hand.
pub fn examples()
    ensures { Examples }
{}
