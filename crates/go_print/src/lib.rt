//! Types and constants as Go writes them.
//!
//! The contract: a type's text is that of its tree, with declared types by their names; a constant's text is the literal that
//! has its value. Each call answers exactly the text of the definition, or want of memory.
#![tactic(auto)]

pub mod laws;
mod literals;
mod names;
mod types;

pub use literals::literal_text;
pub use types::type_text;
