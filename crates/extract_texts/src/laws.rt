//! Laws of the texts, and worked examples.

ghost use Rattle.extract_texts.specs.Examples.{Examples};
ghost use Rattle.extract_texts.specs.Fresh.{AreEnough};

/// As many fresh names are found as are asked for, where as many numbers as that, and one more for each token of the package, have 64
/// bits.
pub fn fresh_names_are_enough()
    ensures { AreEnough }
{}

/// What the definitions say of windows of small functions, worked out by hand.
pub fn examples()
    ensures { Examples }
{}
