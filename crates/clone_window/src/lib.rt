//! Windows of statements, their mass, and when two of them are the same.
//!
//! A window is a run of adjoining statements of one statement list. `windows_of` lists the windows of a function in one walk for the
//! masses and one for the windows; `mass` and `span_of` say what one weighs and which bytes it has. Each contract says exactly this.
//!
//! Two windows are the same where their typed trees agree node by node up to constants, the locals that they name are paired one
//! to one, each with one that stands for an alike variable, constant or type, and the fields that they name at corresponding
//! places have the same names. The contract of `same` says exactly this, and that each call counts one comparison. The pairing is
//! found by two maps from local to local, and names of fields are read only where types or places differ, so it costs what the
//! windows do.
#![tactic(auto)]

pub mod agree;
pub mod alike;
pub mod bounds;
pub mod fields;
pub mod laws;
pub mod locals;
pub mod mass;
pub mod outline;
pub mod pairing;
pub mod run;
pub mod same;
pub mod span;
pub mod weighing;
pub mod windows;
