//! The operations of plans, as code: `perform` does what the meaning's table says of an operation, for all operands, in the
//! table of types that the program holds. `zero_value` is the zero value of a type.
#![tactic(auto)]

mod builds;
mod cuts;
mod items;
mod numbers;
mod operands;
mod picks;
mod runes;
mod slices;
mod table;
mod texts;
mod zeros;

pub use items::{Item, item_at, item_count};
pub use table::perform;
pub use zeros::zero_value;
