//! The rules of statements and declarations as code: which fail, by the typed parts as they are laid out, and what the parts take
//! (Go specification: Statements, Declarations and scope).
//!
//! The contracts of `fault` and `takings` are the rows of the tables of go_stmts_defs (specs/Rules.antt there). Each takes a time that is
//! linear in the number of parts.
#![tactic(auto)]

pub mod around;
pub mod assign;
pub mod branches;
pub mod constants;
pub mod failing;
pub mod given;
pub mod names;
pub mod nodes;
pub mod operations;
pub mod ranges;
pub mod taking;
pub mod targets;
pub mod values;
pub mod wanted;

pub use around::Around;
pub use failing::fault;
pub use given::takings;
pub use taking::Taking;
