//! Go's integer types and their operators, over whole numbers.
//!
//! Each kind of integer has a number of bits and a sign. A value of a kind is an `i128` in the
//! kind's range. The contract of `arith` is one clause for all kinds and operators: the exact
//! result over unbounded whole numbers, wrapped into the kind, or the trap.
#![tactic(auto)]

mod arithmetic;
mod kinds;
pub mod laws;
mod operators;
mod wrapping;

pub use arithmetic::{arith, trap};
pub use kinds::{Kind, LAYOUTS, Layout, fits};
pub use operators::{Op, Trap};
pub use wrapping::wrap;
