//! Calls, by what is called.
ghost use Rattle.std.specs.Prelude.{[], IfOk, length, map};
ghost use Rattle.std.specs.Option.{option_map};
ghost use Rattle.go_base.specs.Gives.{Gives};
ghost use Rattle.go_types.specs.Tables.{rights_of};
ghost use Rattle.go_typed.specs.Trees as trees;
ghost use Rattle.go_typed.specs.Views.{seen, sort_seen, AllKnown, KnownSort};
ghost use Rattle.go_exprs_rules.specs.Faults.{least, judged, refusal_of};
ghost use Rattle.go_exprs_rules.specs.Seen.{AreBasics, one_fault};
ghost use Rattle.go_exprs_rules.specs.Calls.{all_printed, no_results, call_failing, call_sort};
ghost use Rattle.go_exprs_rules.specs.Tables.{on_first};
ghost use Rattle.go_exprs_calls.specs.Shown.{shown, AllShownKnown};

use crate::arguments::{first_part, present};
use crate::builtins::builtin;
use crate::conversions::conversion_call;
use crate::functions::function_call;
use crate::values::all_printed;
use go_exprs_rules::nodes::sort_of;
use go_exprs_rules::{Basics, Place, TypeError, TypeFault};
use go_typed::{Sort, TypedNode};
use go_types::Types;
use std::alloc::Global;

/// `fmt.Println`.
fn print_call(
    types: &Types,
    basics: Basics,
    place: Place,
    nodes: &[&TypedNode],
) -> Result<Sort, TypeFault>
    requires basics { AreBasics types.now basics }
    requires nodes { AllShownKnown (length types.now.shapes) nodes.now }
    ensures exact { let rights = rights_of types.now in let xs = shown types.now nodes.now in
        Gives (sort_seen types.now) one_fault result (judged (least (all_printed rights place.first place.last xs)) no_results) }
    ensures known { IfOk result (KnownSort (length types.now.shapes)) }
{
    match all_printed(types, basics, place, nodes) {
        Some(fault) => Err(fault),
        None => Ok(Sort::Results(basics.procedure)),
    }
}

/// A call of what has this sort, with these arguments.
fn called(
    alloc: Global,
    types: &Types,
    basics: Basics,
    place: Place,
    callee: &Sort,
    nodes: &[&TypedNode],
) -> Result<Sort, TypeError>
    requires basics { AreBasics types.now basics }
    requires callee { KnownSort (length types.now.shapes) callee.now }
    requires nodes { AllShownKnown (length types.now.shapes) nodes.now }
    ensures exact { let rights = rights_of types.now in let f = sort_seen types.now callee.now in let xs = shown types.now nodes.now in
        Gives (sort_seen types.now) refusal_of result (judged (least (call_failing rights place.first place.last f xs)) (call_sort rights f xs)) }
    ensures known { IfOk result (KnownSort (length types.now.shapes)) }
{
    match callee {
        Sort::Type(to) => conversion_call(alloc, types, basics, place, *to, nodes),
        Sort::Builtin(function) => builtin(alloc, types, basics, place, *function, nodes),
        Sort::Println => Ok(print_call(types, basics, place, nodes)?),
        _ => Ok(function_call(types, place, callee, nodes)?),
    }
}

/// What a call stands for (Go specification, "Calls", "Conversions", "Built-in functions"), of its callee and arguments, or the
/// fault that is reported of it.
///
/// # Errors
///
/// `Count` here for a wrong number of arguments; `Operands` here for what can't be called, or operands that the conversion or the
/// predeclared function doesn't have; the least fault of an argument; want of memory.
pub fn call(
    alloc: Global,
    types: &Types,
    basics: Basics,
    place: Place,
    parts: &[Option<TypedNode>],
) -> Result<Sort, TypeError>
    requires basics { AreBasics types.now basics }
    requires parts { AllKnown (length types.now.shapes) parts.now }
    ensures exact { let rights = rights_of types.now in let ys = map (option_map (seen types.now)) parts.now in
        Gives (sort_seen types.now) refusal_of result (judged (least (on_first [] (λ f xs. call_failing rights place.first place.last (trees.sort_of f) xs) ys)) (on_first trees.Unknown (λ f xs. call_sort rights (trees.sort_of f) xs) ys)) }
    ensures known { IfOk result (KnownSort (length types.now.shapes)) }
{
    let Some((callee, others)) = first_part(types, parts) else {
        return Ok(Sort::Unknown);
    };
    let nodes = present(alloc, types, others)?;
    called(alloc, types, basics, place, sort_of(types, callee), &nodes)
}
