//! Worked examples, run through the public calls of the lowest crates, of files, names and expressions, of the types and of typed
//! functions.
//!
//! Each crate's contract says what its calls answer; the tests here compare a few answers with values from outside, and call
//! what takes memory where there is enough of it. They are in a crate of their own, since the check of a crate with tests
//! proves it twice.
#![tactic(auto)]

#[cfg(test)]
mod calls;
#[cfg(test)]
mod files;
#[cfg(test)]
mod folders;
pub mod known;
#[cfg(test)]
mod names;
#[cfg(test)]
mod script;
pub mod source;
#[cfg(test)]
mod texts;
#[cfg(test)]
mod typed;
#[cfg(test)]
mod types;
pub mod typing;
#[cfg(test)]
mod windows;
pub mod worked;
