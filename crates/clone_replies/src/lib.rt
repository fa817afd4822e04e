//! The replies to `classes`, `maximal`, `stat` and `run`, of a package that type-checks.
//!
//! The contract: `class_reply` answers exactly the bytes of the definition of the listing, `maximal_reply` those of the classes of some
//! numbers with what of each file is covered, `numbers_of` the numbers of the package
//! (how many functions, windows, distinct hashes and clone classes it has), and `run_reply::reply` the words for the run that the
//! meaning defines, or those for a package without `main`. Classes, listing, maximal classes, numbers and runs are defined over the types
//! themselves, and are those of a package that the program holds, whatever numbers it gives to types (`laws`).
#![tactic(auto)]

mod count;
pub mod hashes;
pub mod laws;
mod maximal;
mod numbers;
mod origins;
mod reply;
pub mod run_reply;
mod shown;

pub use maximal::maximal_reply;
pub use numbers::{Numbers, numbers_of};
pub use reply::class_reply;
