//! Laws of packages that type-check: where the holes of their statements stand in the trees of their files.
#![tactic(auto)]

pub mod laws;
