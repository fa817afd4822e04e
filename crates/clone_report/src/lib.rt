//! A report on clone classes: which of them are maximal, and how many statements are covered.
//!
//! A class is subsumed by another one where each of its members has one statement more there, all on one side; a class that none
//! subsumes is maximal. `maximal` answers the numbers of these, exactly by the definition over all pairs of classes, and by `laws`
//! every member of every class lies within a member of a maximal one. `covered` counts the statements of a file, and those among
//! them that stand, or stand within one that stands, in a member of a class.
#![tactic(auto)]

mod coverage;
mod ends;
pub mod laws;
mod numbers;
mod run;
mod side;
mod subsumption;
mod tally;

pub use coverage::{covered, covered_files};
pub use side::Side;
pub use subsumption::maximal;
