//! Parts of the typing of statements that need no state.
//!
//! Tests (`calls`, `endings`, `nodes`, `targets`): what is a variable, what may be assigned to, which calls may be statements, and
//! which statements are terminating (Go specification: Assignment statements, Expression statements, Terminating statements). Each
//! answers the definition of its name in go_stmts_defs. Whether a statement is terminating is found in a time that is linear in the
//! number of its nodes.
//!
//! Layouts: how the parts of statements and declarations are told and laid out. `told::told`, `form::form` and `layout::layout` are the
//! tables of the definition (specs/Laying.antt of go_stmts_defs), over typed parts as the program holds them; the name of a type that
//! is declared is put before its right side by the caller.
//!
//! The right side of a local type: the limit on array types whose size is known only after it, and how the table takes it.
//! `late::push_late` and `late::late_fault` together judge what `late_limits` of go_stmts_defs does, and `rights::give_right` changes the
//! right sides as `placed` does, or answers `Memory`.
#![tactic(auto)]

pub mod calls;
pub mod endings;
pub mod form;
pub mod headers;
pub mod late;
pub mod layout;
pub mod nodes;
pub mod rights;
pub mod specifications;
pub mod targets;
pub mod told;

pub use late::LateArray;
