//! What is known around a statement.

use go_exprs_rules::Basics;
use go_typed::{Locals, Sort};
use go_types::TypeId;

/// What is known around a statement: the locals that are declared so far, the tag of the innermost switch, and the types of the
/// results of the function.
#[derive(Clone, Copy)]
pub struct Around<'a> {
    pub locals: &'a Locals,
    pub tag: &'a Sort,
    pub results: &'a [TypeId],
    pub basics: Basics,
}
