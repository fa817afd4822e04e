//! What the objects of a package need: whether an object passes a test with all that it needs, at once or through others, and whether
//! a fault of another declaration keeps the rule of a specification from being judged.
//!
//! The contracts: `Needs::passing` answers exactly `passes` of go_package_defs's specs/Knowledge.antt, for all objects in one pass over the
//! names of specifications, and `Needs::is_blocked` exactly `is_blocked` of its specs/Verdicts.antt. A search that nobody has to trust
//! proposes how far each object is from one that fails; what it proposes is tried against the names before it counts.
#![tactic(auto)]

mod blocked;
mod bounds;
mod calls;
pub mod components;
mod declaring;
mod groups;
mod levels;
mod nearest;
pub mod needs;
mod objects;
mod owners;
mod parts;
mod ranked;
mod ranks;
mod reached;
mod search;

pub use bounds::Bound;
pub use declaring::Declaring;
pub use needs::{Needs, Passing, needs_of};
