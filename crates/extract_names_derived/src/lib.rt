//! That what is made of derived functions is what the laws on names ask for.
#![tactic(auto)]

pub mod laws;
