//! The typing of statements and of function bodies, as tables: what each statement asks of its parts, what it declares, and how
//! it ends.
//!
//! The definitions (specs/) go on with those of expressions: one engine reads a body from left to right and hands on what is
//! declared so far. The contracts here are worked examples and laws of the definitions.
#![tactic(auto)]

pub mod laws;
