//! Laws of a copied run of statements with names in place of some of its expressions, which paths lead to.
#![tactic(auto)]

pub mod laws;
