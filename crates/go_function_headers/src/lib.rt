//! Functions at the end of a file, whatever levels their headers have: their tokens and the declarations that they are.
#![tactic(auto)]

pub mod laws;
