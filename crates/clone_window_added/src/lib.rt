//! Windows, masses and classes of functions that stay as they are where a function is appended to their package.
#![tactic(auto)]

pub mod laws;
