//! Statements and bodies whose tokens stand elsewhere, and whose locals and objects have other numbers; lists of statements in which other
//! statements take the place of some.
#![tactic(auto)]

pub mod laws;
