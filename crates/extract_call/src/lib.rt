//! Calls in place of windows: a call of a new function does what the window does, and a package with such calls runs alike.
//!
//! `specs/Calls.antt` says what stands in place of a window and what the new function is, `specs/Members.antt` what goes in and what
//! comes back, `specs/Extraction.antt` puts a package together, and `specs/Alike.antt` says what it means that two packages run
//! alike.
#![tactic(auto)]

pub mod laws;
