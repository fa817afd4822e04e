//! What the typing of expressions, statements and functions reads of a scope: its right sides, and what the tokens of the tree say and
//! mean.
//!
//! The contract of each law says it: in two scopes that say the same at the tokens of a tree it is typed the same, and the same rules
//! fail in it. So a function is with its types what `go_package_defs` says in each scope that has the texts and the objects of its own
//! tokens, and the trees of files are read by their own tokens.
#![tactic(auto)]

pub mod laws;
