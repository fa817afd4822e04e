//! Laws of packages that type-check: where their functions and the statement lists of these stand in the trees of their files.
#![tactic(auto)]

pub mod laws;
