//! Laws of the types of what stands in a function without faults.
#![tactic(auto)]

pub mod laws;
