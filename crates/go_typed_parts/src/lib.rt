//! Typed functions and packages of parts, which are tested.
//!
//! The contract: `typed_func` answers the typed function of what it is given, or else that memory ran out, also where what it is
//! given is no typed function; `typed_package` answers the package of what it is given, and nothing where that is no package.
#![tactic(auto)]

mod func;
mod known;
mod objects;
mod package;
mod tests;

pub use func::typed_func;
pub use package::typed_package;
