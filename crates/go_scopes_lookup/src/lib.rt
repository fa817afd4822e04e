//! The declarations of a package, and what its names mean.
//!
//! `look_up` answers the names that are looked up, each with its meaning, and the objects of all tokens, exactly by the
//! definitions in go_tree. Scopes are a stack of tables by name, which is kept along the tokens of a file.
#![tactic(auto)]

pub mod asked;
pub mod declared;
pub mod found;
pub mod keys;
pub mod kinds;
pub mod look_up;
pub mod meaning;
pub mod scopes;
pub mod sorted;
pub mod sweep;
pub mod table;
pub mod unit;
