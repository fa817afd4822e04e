//! Laws of what an extraction writes: where no code applies to windows of a package that type-checks, its calls and its function can be
//! written.
#![tactic(auto)]

pub mod laws;
