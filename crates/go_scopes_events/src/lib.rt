//! What the nodes of a Go file's tree have to do with names.
//!
//! A walk over the tree tells, in the order of the tokens, which names its nodes declare and where these are in scope, which
//! names are looked up, which must differ among themselves. The definitions stand in go_tree; the contract of `events` is the
//! exact list, and `laws` says how its names and scopes lie.
#![tactic(auto)]

pub mod enter;
pub mod laws;
pub mod own;
pub mod predeclared;
pub mod walk;
