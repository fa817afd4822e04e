//! Laws of packages whose declarations stand in an order: what their objects stand for is known by stages, and further rounds change nothing.
#![tactic(auto)]

pub mod laws;
