//! What Go packages do when they run, as definitions, and laws on them.
#![tactic(auto)]

pub mod laws;
