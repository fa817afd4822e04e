//! The typed parts of a node.
ghost use Rattle.std.specs.Prelude.{◌≡◌};
ghost use Rattle.go_stmts.specs.Signatures.{results_or};

use go_typed::{Sort, TypedNode};
use go_types::{TypeId, TypeIds};

/// The typed parts of a node, with the tag and the results that are known behind them; no results where they are those around the
/// node.
#[derive(Drop)]
pub(crate) struct Row {
    pub(crate) parts: Vec<Option<TypedNode>>,
    pub(crate) tag: Sort,
    pub(crate) results: Option<TypeIds>,
}

/// The results of the function itself, or else those around it.
pub(crate) fn results_or<'b>(own: &'b Option<TypeIds>, outer: &'b [TypeId]) -> &'b [TypeId]
    ensures { result.now ≡ results_or own.now outer.now }
{
    match own {
        Some(results) => results.as_slice(),
        None => outer,
    }
}
