//! Expressions in their contexts: the typed tree with final types, or the fault that is reported.
//!
//! `expression::type_expr` types an expression by itself (go_exprs_engine) and gives it the type that its context wants. Its contract: it
//! answers what specs/Contexts.antt says, with faults by the bytes of the file (specs/Expressions.antt). `laws` say that a final type
//! follows from what is wanted from above (specs/Final.antt), and that literals of a lexed file can be read.
#![tactic(auto)]

pub mod context;
pub mod error;
pub mod expression;
pub mod laws;

pub use context::Context;
pub use error::TypeError;
pub use expression::type_expr;
