//! The check of a package: whether it type-checks, and what is reported where it doesn't.
//!
//! The contract of `check`: it answers the package with its types exactly where no rule of the language fails, and else the one fault
//! that is reported (`IsReported` of go_package_defs); or else memory ran out. Each phase has a function whose contract is the rest of
//! the definition's answer (specs/Checks.antt).
//!
//! `read_files` reads the files from their bytes to their trees: it answers the files with their tokens and trees, or else the fault
//! that is reported of the package: of all encodings first, then of all tokens, then of all trees, and of each the first file's.
//! `type_functions` answers exactly `functions_from` of the definition (specs/Bodies.antt of go_package_defs), the functions in the order
//! of files and places, or the fault of the first that has one; `type_variables` answers `variables_of`, the typed trees of the
//! specifications of variables.
#![tactic(auto)]

mod assembly;
mod bodies;
mod defined;
pub mod fault;
pub mod function;
pub mod functions;
pub mod laws;
mod origins;
mod phases;
mod read;
pub mod variables;
mod whole;

pub use functions::type_functions;
pub use go_package_defs::{CheckError, CheckedPackage};
pub use go_stmts::laws::functions_stay;
pub use read::read_files;
pub use variables::type_variables;
pub use whole::check;
