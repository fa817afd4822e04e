//! The rules of calls and composite literals, as code: calls of functions, conversions, predeclared functions, and literals of
//! arrays, slices and structs.
//!
//! The contracts of `call`, `literal`, `call_takes` and `literal_takes` are the rows of the tables of typing for these kinds of
//! nodes: what the node stands for or the fault that is reported of it, and what its parts take of their place. Each takes a time
//! that is linear in the number of parts.
#![tactic(auto)]

pub mod arguments;
mod builtins;
pub mod calls;
mod conversions;
mod elements;
mod extremes;
mod functions;
pub mod laws;
mod lengths;
pub mod literals;
mod makes;
pub mod takes;
mod values;

pub use calls::call;
pub use literals::literal;
pub use takes::{call_takes, literal_takes};
