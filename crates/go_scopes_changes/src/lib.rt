//! Laws of packages that differ in the bodies of functions alone: no rule of names fails outside of functions that did not.
#![tactic(auto)]

pub mod laws;
