//! Statements whose declared types leave the types of tags as they are, by the order in which types are declared.
//!
//! The law on statements with variables in place of constants (`go_stmts_variables`) asks that types which are declared don't change what the
//! types of tags are (`Steady`). A tag is typed before its clauses, and the types of a function have numbers in the order in which they are
//! declared. So the type of a tag is none of those that its clauses declare, nor does it reach one.
#![tactic(auto)]

pub mod laws;
