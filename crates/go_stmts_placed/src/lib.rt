//! Laws of functions in which each name stands behind what it means: all their nodes stand for something known.

#![tactic(auto)]

pub mod laws;
