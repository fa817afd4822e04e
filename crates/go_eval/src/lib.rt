//! Runs of packages that type-check: the package's variables are initialised in order, then `main` is called (Go specification,
//! "Program initialization and execution").
//!
//! The contract of `run`: its answer is the run that the meaning defines, at this input, these turns and the bound `DEPTH` of
//! depth, or that the package has no `main` to run.
//!
//! `run_tasks` is the loop over the tasks of the machine: each is done, or gone out through, by the answer of the one before, until
//! none is left. Its contract is that what the tasks come to in the meaning is what the loop did, under each bound above the turns.
//! There is no measure in it and no recursion: its steps are counted by a number that no run reaches. Clauses (those of a switch, and
//! the range clause of a loop) and calls (a call spends a turn and is one deeper than its caller, and its body has a frame of its own)
//! are steps of the machine, each one equation.
#![tactic(auto)]

pub mod apply;
pub mod dispatch;
pub mod entry;
pub mod leave;
pub mod out;
pub mod outcome;
pub mod program;
pub mod ranges;
pub mod steps;
pub mod switches;
pub mod tasks;
