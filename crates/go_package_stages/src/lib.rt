//! When the objects of a package are known for good: numbers that a search proposes, and a test of them.
//!
//! `plan_of` proposes an order in which each object stands after those that its names need, and numbers by it; nothing rests on
//! these. `are_staged` walks each declaration once and shows by the numbers that its names are known before it. Its contract: where
//! it answers so, states of the objects that a further round finds again are what the objects stand for after all rounds (`known` of
//! specs/Verdicts.antt of go_package_defs), wherever they were found.
//!
//! The test of one declaration: where `are_before` answers that they are, each name of an expression is known before it with all that
//! it needs (`EachName` of specs/Names.antt of go_package_laws), and where `are_before_type` does, each name of a type is, as it is
//! needed there (`EachNeed`). Each tree is walked once.
#![tactic(auto)]

pub mod groups;
mod marked;
pub mod marks;
pub mod names;
mod naming;
mod numbering;
pub mod numbers;
mod order;
pub mod plan;
mod settled;
pub mod staged;
pub mod types;

pub use groups::Group;
pub use marks::{Mark, Marks};
pub use names::are_before;
pub use numbers::Numbers;
pub use plan::{Plan, plan_of};
pub use staged::are_staged;
pub use types::are_before_type;
