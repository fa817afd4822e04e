//! The declarations of the package block: which specification declares what, with its type and its values; and one declared name
//! judged by itself, in any scope.
//!
//! The contracts: `specifications` answers those of the definition (specs/Declarations.antt of go_package_defs), in the order of files and
//! places; `judge_name` answers what a constant, a variable or a function stands for and which rules fail at it, `right_side` the
//! right side of a type and `type_fault` the rules that fail in it (specs/Verdicts.antt there), each in the scope that it is given.
#![tactic(auto)]

pub mod assigning;
pub mod judging;
pub mod laws;
pub mod procedure;
pub mod reading;
pub mod specification;

pub use assigning::Assigned;
pub use judging::Verdict;
pub use reading::specifications;
pub use specification::Specification;
