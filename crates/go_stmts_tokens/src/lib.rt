//! Laws of what is read of a body: its nodes lie in the order of their tokens.
#![tactic(auto)]

pub mod laws;
