//! Laws of packages where statements are taken out into a function: no rule of names fails that did not.
#![tactic(auto)]

pub mod laws;
