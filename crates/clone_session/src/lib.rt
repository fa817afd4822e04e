//! A session over the texts of a package: the texts are edited, the package is checked and run, and its clone classes are listed.
//!
//! The contract: `fault` is none exactly where the present package type-checks, and else the fault that is reported of it; `classes`
//! are the clone classes of the present package by definition, under every hash of windows that is lawful within a package, `maximal`
//! the numbers of the maximal ones among them, and `covered` counts the statements of a file and those that they cover; `run` is its run,
//! and `stat` gives its numbers. Texts that were edited are checked again, and all windows are put into an index anew, each
//! once, which the counts of `refresh` say; so nothing is told of earlier texts. After a refusal and after want of memory the texts
//! are as they were.
//!
//! `PackageWorkspace` answers the commands on a package: each reply is that of the definition at the present texts (`Answers`): of
//! `classes` the listing of the clone classes of a package that type-checks, of `maximal` its maximal classes and what of each file is
//! covered, of `stat` its numbers, of `run` what came of its run, of `extract` what was taken out, with the new texts, or the refusal, and
//! else the line of the fault that is reported of it. A command has one reply, and leaves one package (`laws`). `answer` gives the
//! replies to the commands that read or change the texts alone (`edit`, `add`, `drop` and `show`).
#![tactic(auto)]

mod answers;
mod check;
mod copy;
mod extract;
mod extract_answers;
mod indexed;
pub mod laws;
mod maximal;
mod numbers;
mod replies;
mod run;
mod run_answers;
mod session;
mod verdict;
mod workspace;

pub use check::Check;
pub use copy::{copy_under, file_at};
pub use replies::answer;
pub use session::Session;
pub use verdict::Verdict;
pub use workspace::PackageWorkspace;
