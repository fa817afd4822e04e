//! What statements and functions read of the numbers of their own declared types.
#![tactic(auto)]

pub mod laws;
