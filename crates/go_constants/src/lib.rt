//! Go's untyped constants: exact values, the operations on them, and what a type represents.
//!
//! A constant is a boolean, a whole number from -2^127 to 2^127-1, or a list of bytes. The
//! contract of `fold` is the value over unbounded whole numbers, or the refusal, unless memory
//! ran out; that of `represent` is whether a type has the value. The bytes of a string constant are
//! shared by all who hold it.
#![tactic(auto)]

mod folding;
pub mod laws;
mod representing;
mod shared;
mod values;
mod wholes;

pub use folding::fold;
pub use representing::{Basic, represent};
pub use shared::SharedBytes;
pub use values::{Const, ConstFault, ConstOp};
