//! The check of a whole package, as definitions: what the objects of a package are, its functions with their types, and of a package
//! that isn't good the one fault that is reported. The definitions (specs/) put the phases together: bytes, tokens, trees, names,
//! declarations, bodies.
//!
//! Beside them the types of an answer: `CheckedPackage`, a package that type-checks, of which holds that it is what the check of its
//! own bytes gives, up to the numbers of its declared types (`IsCheckedPackage`), and `CheckError`, why a package isn't good.
#![tactic(auto)]

mod error;
pub mod laws;
mod package;

pub use error::CheckError;
pub use package::CheckedPackage;
