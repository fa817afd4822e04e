//! Laws of types as they are written: in a package that type-checks fields have names that are spelled as names are.
#![tactic(auto)]

pub mod laws;
