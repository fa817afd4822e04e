//! The locals that an extraction hands over are named by nodes of the template's statements, outside holes.
#![tactic(auto)]

pub mod laws;
