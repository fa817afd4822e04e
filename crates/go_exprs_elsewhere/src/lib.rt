//! Expressions and types whose tokens stand elsewhere, and whose locals and objects have other numbers.
//!
//! The contract of the law says it: they are typed the same, under the new numbers, and the same rules fail in them, at the places where
//! the tokens now stand. Of the texts of tokens only those of literals, keys, fields and selectors are read.
#![tactic(auto)]

pub mod laws;
