//! Worked examples of the definitions. The function does nothing: its contract is the examples.
ghost use Rattle.go_constants.specs.Examples.{Examples};

/// Values and refusals of operations.
pub fn examples()
    ensures { Examples }
{}
