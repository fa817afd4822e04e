//! The typing of names, types, selectors and slice expressions.
//!
//! The contract of each call is its row of the tables of go_exprs_rules (specs/Tables.antt there): what the node stands for, or the
//! fault that is reported of it. A call that makes a type puts it into the table of types and leaves all types that are there,
//! whatever it answers. `Scope` is what the program holds of the meaning of names; specs/Naming.antt says what they mean.
#![tactic(auto)]

pub mod fields;
pub mod forms;
pub mod names;
pub mod predeclared;
pub mod scope;
pub mod sequence;
pub mod signature;
pub mod slices;
pub mod standing;
pub mod structure;

pub use scope::Scope;
pub use standing::{Needed, Standing};
