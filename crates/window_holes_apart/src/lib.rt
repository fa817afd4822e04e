//! Laws of windows: their holes lie one behind the other.
#![tactic(auto)]

pub mod laws;
