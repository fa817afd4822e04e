//! Statements where variables stand in place of constants.
//!
//! A hole of the final type T becomes the name of a variable of type T. In a statement all parts are given what they take, so the typed
//! tree of the statement is the old one with the variables in place of the holes. What is known where a statement begins is the same, but
//! for these variables and for the tag of the switch around it, which may be a value in place of a constant.
//!
//! Which rules of statements look at constants, and what a variable does there (for the rules of expressions see `go_exprs_variables`):
//!
//! - conditions (`condition_failing`): a truth value is one still, of the type `bool` where it was untyped. Rules of terminating
//!   statements look at whether a condition is there, not at its value, so `for true {}` isn't terminating before either;
//! - tags (`tag_failing`, `tag_behind`): one that was a constant is a value of its type, which for an untyped one is its default type. So
//!   what clauses know changes at the tag alone;
//! - cases (`case_failing`): a value of a case is compared in the type of the tag, which it takes; cases that are equal constants are
//!   accepted, so none becomes wrong. Where a tag has no type, as `fmt.Println` has none, nothing judges a case, so constants in it may be
//!   out of range until a variable stands beside them: so tags are asked to have types (`Tagged`, with the example `tags_need_types`). Cases are
//!   read in front of their statements and judged behind them: so types that are declared are asked to leave those of tags as they are
//!   (`Steady`, with the example `tags_need_steady_types`);
//! - values that are given to variables (`assignment_failing`), in assignments, declarations and returns: the variable has the type that
//!   the constant took;
//! - short variable declarations and declarations of variables (`names_take`): `x := 1` takes the default type, which is that of the
//!   variable, so the names stand for what they stood for;
//! - `op=` (`operation_failing`): the left side has a type, which the other operand takes, or it is shifted by a count, which takes `uint`.
//!   A constant divisor 0, a negative count and a result out of range become fewer;
//! - range clauses (`range_types`, `number_unassigned`): an untyped integer constant takes the type of the first target, or its default
//!   type; a variable of that type goes over the same numbers, and a text over the same positions and characters;
//! - left sides (`is_variable`, `is_target`): a variable is one where a variable stands in an index of it;
//! - expression statements (`is_statement_call`) and calls of `panic`: these have callees that are no constants, and are none;
//! - names that are declared and types are no holes, and declarations of constants and types have none: they are read as they were, and so
//!   is what a specification of constants repeats.
#![tactic(auto)]

pub mod laws;
