//! The types, answers and windows of packages with equal heads.
//!
//! The contracts of the laws say it: in packages with equal heads, whose names are free of faults, what the declarations stand for is the
//! same where it is no fault; a function whose body has the same texts has the same types, up to the numbers of its own declared types,
//! and the same windows, which have one number under every lawful hash.
#![tactic(auto)]

pub mod laws;
