//! The names of a package: what each means, or what is wrong with them.
//!
//! `resolve` answers what each identifier means exactly where no rule on clauses and names fails, else the fault that the
//! definitions in go_tree report. Each rule is a function that takes the least fault so far, and whose contract names the places
//! where the rule fails: it answers the least of that fault and those at these places.
#![tactic(auto)]

mod branches;
mod clauses;
mod constants;
mod cycles;
mod duplicates;
pub mod error;
pub mod failure;
mod file_rule;
pub mod laws;
mod lists;
mod lookups;
mod members;
pub mod names;
mod redeclared;
pub mod repeated;
pub mod resolve;
mod unused;
