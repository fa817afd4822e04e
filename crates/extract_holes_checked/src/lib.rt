//! Laws of extractions from packages that type-check: the holes of the template stand at paths of the tree of its file.
#![tactic(auto)]

pub mod laws;
