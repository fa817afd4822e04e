//! Laws of the names in the declarations of a package that type-checks: they stand as they may, so that all objects of the package stand
//! for something known.

#![tactic(auto)]

pub mod laws;
