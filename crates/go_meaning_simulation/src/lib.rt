//! Trees that are kin do the same: a simulation over the meaning of Go.
//!
//! Two trees are kin where node by node their plans are equal, but for what links allow: other locals, a local that holds a
//! constant in the constant's place, and runs of statements that stand for one another (`specs/Kin.antt`, `specs/Links.antt`).
//! `proofs/Public.antt` has the general form, for any links and at any cost in turns; the laws are its instances.
#![tactic(auto)]

pub mod laws;
