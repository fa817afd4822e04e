//! What a package is but for the bodies of its functions: its head, its functions by their numbers, and which are touched between
//! two packages.
//!
//! The contracts of the laws say it. Packages with equal heads have the same functions under the same numbers, with the same names
//! and signatures; a function whose body has the same texts is the same by itself. They have the same objects under the same numbers,
//! files with equal heads say the same of names outside of bodies, and a token outside of bodies means the same. What the tree of a
//! function has to do with names is the same wherever it stands, so many tokens further on; the locals of a package are those of its
//! functions by themselves. Where the texts of a function's body are the same, each of its tokens means the same, and its locals are
//! the same.
#![tactic(auto)]

pub mod laws;
