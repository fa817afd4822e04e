//! Laws of extractions: the holes of the template stand at paths of the tree of its file.
#![tactic(auto)]

pub mod laws;
