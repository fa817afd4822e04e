//! The numbered table of Go types.
//!
//! A type has a number in a table, a `TypeId`, and its shape names its parts by their numbers. The
//! contract: equal numbers are identical types, and each answer is the one that the rules of the Go
//! specification give for the types that the numbers stand for, which are finite trees under the
//! right sides of the declared types (specs/Trees.antt, Relations.antt and Tables.antt).
//!
//! What is known of each settled type is kept beside its shape, and each other type waits for a part
//! of which nothing is known; a definition wakes those that wait for it (specs/Waiting.antt). The
//! places of a struct's fields are kept by their names (specs/FieldPlaces.antt). So of the calls none
//! but `intern`, which reads the shape that it is given, walks over the parts of a type.
#![tactic(auto)]

mod finding;
mod index;
mod keys;
pub mod laws;
mod placed;
mod shape;
mod types;
mod verdict;
mod waits;
mod waking;

pub use shape::{Field, Fields, Shape, TypeId, TypeIds};
pub use types::Types;
