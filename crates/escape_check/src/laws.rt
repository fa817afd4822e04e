//! Refusals of worked examples, and a law of windows that are not refused.

ghost use Rattle.escape_check.specs.Apart.{UnrefusedAreApart};
ghost use Rattle.escape_check.specs.Examples.{Examples};

/// What the definitions say of windows of small functions, worked out by hand.
pub fn examples()
    ensures { Examples }
{}

/// Windows to which no code applies have no token of a function in common.
pub fn unrefused_windows_are_apart()
    ensures { UnrefusedAreApart }
{}
