//! Laws of packages that type-check: where the holes of their windows stand in the trees of their files.
#![tactic(auto)]

pub mod laws;
