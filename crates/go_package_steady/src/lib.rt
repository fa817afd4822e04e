//! Bodies of functions in packages that type-check, whose declared types have numbers in order.
//!
//! The laws on statements with variables in place of constants (`go_stmts_steady`) ask that the types that a body declares have numbers in
//! order, behind those of all types that are known where it begins. The locals of a function are numbered in the order in which they are
//! declared, and its types behind those in front of the function.
#![tactic(auto)]

pub mod laws;
