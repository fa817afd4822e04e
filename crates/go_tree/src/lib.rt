//! Syntax trees of Go files, and what their names mean.
//!
//! A tree is made of one type of node: a kind, a range of tokens, and parts, which are taken by their places. `File` holds the
//! tokens of a file with its text, and the tree that stands over all of them. `functions` and `statement_lists` number the
//! functions of a file and the blocks and clauses of a function. The laws in `laws` say that the parts of a derivation lie one
//! after the other inside its range, and that a node begins before it ends.
//!
//! What the names of a package mean, and what is wrong with them, is defined here too: specs/Contexts.antt to Faults.antt, over
//! the types of `context`, `event` and `object`. `Uses` is the answer, a table by token.
#![tactic(auto)]

mod agree;
pub mod context;
pub mod event;
pub mod file;
pub mod functions;
pub mod laws;
pub mod lookup;
pub mod meant;
pub mod node;
pub mod object;
pub mod statement_lists;
pub mod uses;
