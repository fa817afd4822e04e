//! The types of a package: what its types, constants, variables and functions stand for, or the fault of its declarations that is
//! reported.
//!
//! The contract of `type_package`: it answers exactly `package_answer` of the definition (specs/Answer.antt of go_package_defs).
//! `specification_fault` judges one specification of the package block as a whole: the rules of its type and its expressions, and where
//! none of these fails its own, on the number of its values and on their assignment (specs/Verdicts.antt of go_package_defs), in the
//! scope that it is given, with the answer to whether the specification is blocked by another one's fault.
#![tactic(auto)]

pub mod answer;
pub mod declare;
pub mod faults;
pub mod laws;
pub mod main_function;
pub mod package_types;
pub mod rules;
pub mod stands;
pub mod whole;

pub use package_types::type_package;
pub use whole::specification_fault;
