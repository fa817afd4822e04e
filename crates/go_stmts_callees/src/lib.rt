//! Laws of typed functions: no constant is called in them, and none is a struct.
#![tactic(auto)]

pub mod laws;
