//! Tables of cases with their answers, for the programs that compare the crates with them.
//!
//! A table is a file with one case a line. `run` prints each case that differs, and how many agree; its contract is that it returns.
#![tactic(auto)]

pub mod digits;
pub mod folders;
pub mod table;
