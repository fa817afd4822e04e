//! The words that every crate of goclone speaks: names of files, spans of bytes, faults of the
//! checker, counts of steps, and the error of a call that can only lack memory.
//!
//! The contract: `Name::of` takes exactly the bytes from 1 to 255 and keeps them, and
//! `Name::is_go_file` says which of them name a file of a package; the codes, words and phases of
//! faults are those of one table; each tick raises one count by one. A package has 256 files and
//! 1,048,576 bytes at most: `laws::limits`.
//!
//! `specs/Gives.antt` has the words that the contracts of all crates share: a call answers this
//! value or this refusal, unless memory ran out. `proofs/Gives.antt` has their laws.
#![tactic(auto)]

mod bytes;
mod fault;
pub mod laws;
mod memory;
mod name;
mod package;
mod span;
mod steps;

pub use bytes::{Bytes, FileText};
pub use fault::{Fault, FaultCode, Phase};
pub use memory::Memory;
pub use name::{Name, NameError};
pub use package::{MAX_BYTES, MAX_FILES};
pub use span::Span;
pub use steps::Steps;
