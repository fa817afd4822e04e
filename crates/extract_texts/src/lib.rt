//! The texts of an extraction: what stands at the windows of members, the new function, and the fresh names of its parameters.
//!
//! At each window stands a call of the new function, and in front of it a declaration of each variable that the window declares and
//! that occurs behind it. The function has the template's own bytes, with fresh names in place of the constants that are
//! parameters. Each call answers exactly the bytes of its definition, which is over the types themselves.
#![tactic(auto)]

pub mod call;
pub mod fresh;
pub mod function;
mod header;
mod held;
pub mod laws;
mod pieces;
pub mod template;
