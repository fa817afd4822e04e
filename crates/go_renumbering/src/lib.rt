//! Expressions, bodies and functions where the declared types have other numbers.
//!
//! The contracts of the laws say it: under a one-to-one renaming of declared types they are typed the same, renamed, and the same rules
//! fail in them.
#![tactic(auto)]

pub mod laws;
