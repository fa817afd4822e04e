//! A law on where the functions of a package that type-checks stand in its files, and on the tokens of their statements.

#![tactic(auto)]

pub mod laws;
