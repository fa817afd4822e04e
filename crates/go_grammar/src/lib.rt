//! The grammar of the Go profile as data: kinds of nodes, categories, and a table of productions.
//!
//! Its contract are the laws in `laws`: over a range of tokens stands at most one tree of a category, and a reader that
//! looks one token ahead finds it.
#![tactic(auto)]

mod categories;
pub mod items;
pub mod kind;
pub mod laws;
pub mod lookahead;
mod operators;
pub mod production;
