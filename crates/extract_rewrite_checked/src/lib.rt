//! The files of an extraction of a package that type-checks: its windows stand where the laws on files ask for them, and what is written there
//! can be written.
#![tactic(auto)]

pub mod laws;
