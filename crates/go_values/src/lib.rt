//! The values of running programs, and what operations do to them and to the world.
//!
//! A value and a world of the program stand for those of the meaning (`view`, `world_view`). The contract of an operation is its
//! row in the meaning's table, for all operands: what it gives, which panic it is and the world behind it. After want of memory
//! the world stays as it was.
#![tactic(auto)]

mod arithmetic;
mod comparisons;
mod integers;
mod lists;
mod panic;
mod parts;
mod prints;
mod slices;
mod texts;
mod value;
mod world;

pub use comparisons::{compare, equal};
pub use integers::{complement, compute, convert, negate, not};
pub use panic::{Panic, Stop};
pub use parts::{copy_part, element, field, part, place_of, take_part, with_inner, with_part};
pub use slices::{capacity, length};
pub use texts::{byte, join};
pub use value::{Segment, Value, copies_of};
pub use world::World;
