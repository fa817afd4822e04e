//! The parser of Go files.
//!
//! `parse` answers the tree of a file exactly where there is one, and then that one. It is an engine over the table of
//! productions: `tree` reads a node of a category, from the left, and decides by the next token.
#![tactic(auto)]

mod engine;
mod error;
mod next;
mod parser;
mod row;

pub use error::ParseError;
pub use parser::parse;
