//! The machine that runs typed packages: a list of tasks in place of recursion, so that neither calls nor turns of loops nor
//! the depth of trees take room on the program's own stack.
//!
//! A task is a part of what is left to do, and what all of them come to is a rest: a computation of the meaning, by the values
//! that were given so far (`specs/Tasks.antt`). Each step is one equation, that the tasks before it and those after it come
//! to the same.
//!
//! Assignments are steps of their own (Go specification, "Assignment statements"): a place is found once, its operands are evaluated
//! from left to right, the index of an array before the next one is tested, and the test of its own one is left to the assignment.
#![tactic(auto)]

pub mod asks;
pub mod assigned;
pub mod computing;
pub mod engine;
pub mod find;
pub mod loops;
pub mod operands;
pub mod operate;
pub mod parts;
pub mod ready;
pub mod start;
pub mod steps;
pub mod store;
pub mod stores;
pub mod task;
