//! Laws on what the declarations of a package stand for.
//!
//! What the typing of expressions and types reads of the right sides of declared types: those alone that it reaches through the types
//! that its names stand for. Where two lists of right sides agree on the declared types that are reached, the answers about types are
//! the same, and so are the typed tree and the rules that fail.
//!
//! Rounds: the definition judges all declarations anew in each round, by what the round before knew. Where states of the objects are
//! found one after the other, each by those that it needs, they are what the definition knows after as many rounds as the longest way
//! from one to another, and further rounds change nothing (`rounds_settle`).
//!
//! Places: a test on places that holds of all nodes of a tree holds of the places of all its faults (`faults_stand_at_nodes`).
#![tactic(auto)]

pub mod laws;
