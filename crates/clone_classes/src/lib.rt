//! Clone classes: groups of two or more windows that are the same.
//!
//! The classes are defined by comparing every window with every other. The laws say what this comes to: members of a class are
//! windows that are the same, two windows that are the same stand in one class, and no window stands in two. `pairwise` answers
//! these classes, and `chosen` the members of one that a choice takes.
#![tactic(auto)]

pub mod choose;
pub mod laws;
pub mod listed;
pub mod pairwise;
pub mod place;
mod taken;
