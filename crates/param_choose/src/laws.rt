//! Choices of worked examples.

ghost use Rattle.param_choose.specs.Examples.{Examples};

/// What the definitions say of two functions, worked out by hand.
pub fn examples()
    ensures { Examples }
{}
