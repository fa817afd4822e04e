//! Functions under other numbers: operations don't see them, and runs stay.
//!
//! A function value is the number of a function. Where functions get other numbers, values and worlds change in these alone
//! (`specs/Moved.antt`). Nothing that is printed tells a function's number, so runs are equal.
#![tactic(auto)]

pub mod laws;
