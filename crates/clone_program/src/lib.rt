//! The program, as a library: a session of a package is answered by the check of the whole package.
//!
//! The contract is that of `serve`, with the replies of a workspace (`Answers`) over `check`.
#![tactic(auto)]

mod program;

pub use program::{Goclone, PackageCheck, run};
