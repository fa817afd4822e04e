//! The typing of expressions and types: one engine over the tables of go_exprs_rules.
//!
//! The parts of a node are typed from left to right, each by what it is told (`told`), and laid out as they stand in the typed node
//! (`layout`); the node is judged from them, labelled (`label`), and gives its parts their types (`settle`). The contract of
//! `engine::type_node`: the typed tree, or the reported fault, is that of the definition `answer` (specs/Typing.antt of
//! go_exprs_rules), and the table of types only grows, whatever is answered. Each node is settled once at most as a whole.
//!
//! Declarations need typing that a fault doesn't end: what has a fault is nothing known, what is beside it is typed all the same,
//! and of all faults the least is kept. `survey` is the engine with this other way of joining: it answers exactly the typed tree of
//! the definition `typing`, and the least of the faults that `faults` gives of all nodes.
#![tactic(auto)]

pub mod build;
pub mod engine;
mod form;
pub mod judge;
pub mod label;
pub mod laws;
pub mod layout;
pub mod settle;
pub mod survey_nodes;
pub mod surveying;
mod takes;
pub mod told;

pub use survey_nodes::Survey;
pub use surveying::survey;
