//! The texts of a package under edits: files with names and bytes, of which one is edited, added or
//! removed at a time.
//!
//! The contract: `Texts` is a package, within its limits and in the order of its names. Each call
//! answers the edited package or the first refusal that applies, and after a refusal, want of
//! memory included, everything is as it was. A list of edits is one edited text after the other.
#![tactic(auto)]

mod begun;
mod edits;
mod places;
mod texts;

pub use edits::{Edit, Edits};
pub use texts::{EditError, Texts};
