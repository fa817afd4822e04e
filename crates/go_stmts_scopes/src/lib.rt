//! Typed functions are lexically scoped.
//!
//! The contracts of the laws say it of expressions and of statements. What is typed as an expression, and what is read as a statement that
//! holds no others, has the shape that evaluation asks for. Where each local that is read is in scope, and those that are written may be, a
//! tree of this shape is lexically scoped: an expression, a statement, a list of statements and a function.

#![tactic(auto)]

pub mod laws;
