//! What an extraction makes of the files of a package that type-checks: each new file is a rewriting of the old one.
#![tactic(auto)]

pub mod laws;
