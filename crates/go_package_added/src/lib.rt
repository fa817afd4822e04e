//! What declarations stand for where a function is appended that nothing names.
#![tactic(auto)]

pub mod laws;
