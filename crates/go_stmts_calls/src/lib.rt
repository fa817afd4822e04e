//! What a call in place of statements is read to be: variables that are declared in front of it, and what its results are given to.
#![tactic(auto)]

pub mod laws;
