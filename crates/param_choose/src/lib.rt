//! What an extraction hands over: the parameters and the results of windows that are the same, when they are taken out into a
//! function.
//!
//! The first window is the template. Its free locals are parameters, and so is each of its holes whose value is not the same in
//! all windows, or which names a constant or a type that is declared outside the window in its function. Results are the free
//! locals that the window assigns, and the variables that it declares and that occur behind some window. The contract of `choose`
//! says exactly this, of the package over the types themselves.
#![tactic(auto)]

pub mod assigned;
pub mod choice;
pub mod choose;
pub mod differ;
pub mod holes;
pub mod later;
pub mod laws;
pub mod names;
pub mod numbers;
pub mod plan;
pub mod template;
pub mod variables;
