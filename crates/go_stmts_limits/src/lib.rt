//! Laws of the limit on the scalars of array types: what stands in a function is within it, where what is around the function is.
#![tactic(auto)]

pub mod laws;
