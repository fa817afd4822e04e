//! Expressions and types whose tokens stand elsewhere.
//!
//! The contract of the law says it: they are typed the same, and the same rules fail in them, at the places where the tokens now stand.
#![tactic(auto)]

pub mod laws;
