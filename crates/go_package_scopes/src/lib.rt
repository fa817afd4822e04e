//! Laws of the typed functions of a package that type-checks: they have the shape that evaluation asks for, and each local that they name
//! is in scope there.

#![tactic(auto)]

pub mod laws;
