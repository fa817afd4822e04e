//! What the names of functions mean where statements are taken out into a function.
#![tactic(auto)]

pub mod laws;
