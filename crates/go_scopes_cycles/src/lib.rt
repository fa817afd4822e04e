//! Which declarations of a package need themselves.
//!
//! `Order::needs_itself` decides it for each declaration, exactly by the definition in go_tree. A search that nobody has to trust
//! proposes ranks, by which a declaration is seen not to need itself, and circles, by which one is seen to do so. `laws` says
//! that a package whose names are free of faults has an order in which each declaration stands after those that it needs.
#![tactic(auto)]

mod circle;
pub mod columns;
mod graph;
pub mod laws;
pub mod needs;
pub mod order;
pub mod ranks;
pub mod rounds;
mod search;
mod walk;
