//! Plans of nodes, and the parts of an evaluator that go down no further than the places of nodes.
//!
//! What the nodes of typed trees do on their own, as code: the plan of a node is that of go_meaning, in the table of types that the
//! program holds. An evaluator goes by these plans. Beside them the state of a run and its turns, what evaluations give and why they
//! end, the frames of calls, and the values at places. Each contract is what the meaning says of the typed tree in the state of the
//! machine: `load` reads what the meaning's `load` of a part gives, `frame_of` is the frame of a call, `Machine::leave` is the way out
//! of a body. Where memory is wanting nothing is said.
#![tactic(auto)]

pub mod calls;
pub mod exit;
pub mod form_plan;
pub mod groups;
pub mod machine;
pub mod parts;
pub mod places;
pub mod plan;
pub mod tables;
pub mod targets;
