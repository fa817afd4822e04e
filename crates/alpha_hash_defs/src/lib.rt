//! Numbers of windows: windows that are the same have equal ones.
//!
//! The number of a window is made of its words, in which the names of locals give nothing, and of the distances between the
//! occurrences of each local. So it doesn't depend on what locals are called, nor on the constants of holes. The definitions stand
//! in specs/Words.antt and specs/Numbers.antt; the laws say what follows from sameness.
#![tactic(auto)]

pub mod laws;
pub mod window_hash;
