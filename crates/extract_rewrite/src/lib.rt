//! The edits that take windows that are the same out into a function.
//!
//! At each window stands a call, and at the end of the first one's file the function. The definition is over the types themselves. Edits
//! of windows that don't overlap may be done one after the other, and all bytes but those of the windows stay.
#![tactic(auto)]

pub mod dropped;
pub mod edits;
pub mod error;
pub mod extract;
pub mod extracted;
pub mod laws;
mod limits;
pub mod order;
mod reading;
mod size;
