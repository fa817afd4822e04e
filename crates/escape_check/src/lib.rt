//! When windows that are the same may not be taken out into a function, and why.
//!
//! Each refusal has a code, and each code one definition in `specs`. `refusal` answers the least code that applies to windows, with the
//! first window to which it applies and the first place there.
#![tactic(auto)]

mod branches;
mod ends;
mod escapes;
mod hidden_names;
mod imports;
mod keeping;
pub mod laws;
mod lost;
pub mod member;
mod overlap;
pub mod place;
pub mod refusal;
pub mod report;
pub mod results;
mod rule;
mod shadow;
mod site;
mod sites;
mod stretches;
mod type_names;
mod types;
mod unused;
pub mod used;
mod written;
