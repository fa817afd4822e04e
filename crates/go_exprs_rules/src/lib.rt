//! The typing of expressions and types, as tables: what each node stands for, which of its rules fail, and what its parts take.
//!
//! The definitions (specs/) say for each kind of node what it is by itself, from its parts alone; one engine applies them to a
//! tree. The contract of each function here is its row of the tables: the sort of a node, or the fault that is reported of it.
#![tactic(auto)]

pub mod assign;
pub mod basics;
pub mod binary;
pub mod compare;
pub mod conversion;
pub mod family;
pub mod fault;
pub mod hint;
pub mod index;
pub mod laws;
pub mod literal;
pub mod nodes;
pub mod operators;
pub mod place;
pub mod results;
pub mod shift;
pub mod sorts;
pub mod take;
pub mod unary;

pub use basics::Basics;
pub use family::{Family, OpenKind};
pub use fault::{Place, TypeError, TypeFault};
pub use hint::Hint;
pub use take::Take;
