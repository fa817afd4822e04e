//! Laws of packages that type-check: what their objects stand for is known by stages, and lies within the limit on scalars.
#![tactic(auto)]

pub mod laws;
