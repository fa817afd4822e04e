//! What any name means at any place of a package, whether or not it stands there.
#![tactic(auto)]

pub mod by_name;
mod segments;
