//! Worked texts, as laws.
ghost use Rattle.go_print.specs.Examples.{Examples};

/// The texts of some types and constants.
pub fn examples()
    ensures { Examples }
{}
