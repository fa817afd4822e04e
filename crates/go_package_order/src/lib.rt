//! The declarations of a package, each judged in its place in an order, behind those that it needs.
//!
//! `judge_in_order` goes through the order that `go_package_stages` proposes, once and for types twice, and judges each object by what is found
//! so far. Nothing rests on the order. Where one round of judging behind it finds the same again, and the tests of `go_package_stages` say that
//! each object's names are known before it, its contract answers what is known after all rounds (`known` of specs/Verdicts.antt of
//! go_package_defs), and the table has the right sides of the declared types. Where one of these fails it answers nothing.
#![tactic(auto)]

pub mod in_order;
mod passes;
mod progress;
mod reaches;
mod settle;
mod sides;
mod standing;

pub use in_order::judge_in_order;
