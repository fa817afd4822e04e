//! Laws of packages that type-check: the holes of a window lie one behind the other, and each has a token.
#![tactic(auto)]

pub mod laws;
