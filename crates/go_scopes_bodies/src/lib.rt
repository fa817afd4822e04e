//! What the names of a function mean, and which rules of names it fails, by the function itself and by what names mean outside of
//! functions.
//!
//! The contracts of the laws say it. Each token of a function in a package means what it means by itself, its objects numbered behind
//! those in front. No fault of names is reported of a package where no rule fails outside of functions and none in a function by itself,
//! and the other way round; two rules stay those of the whole package: that each import is used, and that there are not too many
//! statements. Statements and the use of imports are told function by function too. What a tree tells of names stays the same wherever
//! its tokens stand, and a list of statements tells what its statements tell, each by itself.
#![tactic(auto)]

pub mod laws;
