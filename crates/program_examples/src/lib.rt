//! A session of the program over a real folder. Sessions over folders in memory are rows of `session_vectors`.
//!
//! The tests stand in a crate of their own, since the check of a crate with tests proves it twice.
#![tactic(auto)]

#[cfg(test)]
mod folders;
