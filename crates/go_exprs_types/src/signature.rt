//! Function types.
ghost use Rattle.std.specs.Prelude.{◌≡◌, ℕ, ◌<◌, Option, IfOk, IfSome, length, map};
ghost use Rattle.std.specs.List.{AllByRecursion};
ghost use Rattle.std.specs.Option.{option_map};
ghost use Rattle.go_types.specs.Tables.{type_of};
ghost use Rattle.go_types_relations.specs.Extends.{Grows};
ghost use Rattle.go_typed.specs.Trees.{form_of, list_of, parts_of};
ghost use Rattle.go_typed.specs.Trees as sort;
ghost use Rattle.go_typed.specs.Views.{seen, sort_seen, AllKnown, Known, KnownSort};
ghost use Rattle.go_exprs_rules.specs.Tables.{on_optional};
ghost use Rattle.go_exprs_rules.specs.TypeNodes.{is_parameter, is_result_list, second, part_type, entry_type, entry_of, entry_types, all_types, result_types, parts_in, function_of, signature_type, type_sort};

use crate::names::shape_sort;
use crate::sequence::{named_type, part_type};
use go_base::Memory;
use go_exprs_rules::nodes::sort_of;
use go_grammar::kind::Kind;
use go_typed::{Form, Sort, TypedNode};
use go_types::{Shape, TypeId, TypeIds, Types};
use std::alloc::Global;

/// The parts of a node, in order.
pub fn parts_of<'a>(types: &Types, node: &'a TypedNode) -> &'a [Option<TypedNode>]
    requires { Known (length types.now.shapes) node.now }
    ensures tree { map (option_map (seen types.now)) result.now ≡ list_of (parts_of (seen types.now node.now)) }
    ensures known { AllKnown (length types.now.shapes) result.now }
{
    &node.parts
}

fn form_of(_types: &Types, node: &TypedNode) -> Form
    ensures { result ≡ form_of (seen _types.now node.now) }
{
    node.form
}

fn is_parameter(form: Form) -> bool
    ensures { result ≡ is_parameter form }
{
    matches!(form, Form::Held(Kind::Parameter))
}

fn is_result_list(form: Form) -> bool
    ensures { result ≡ is_result_list form }
{
    matches!(form, Form::Held(Kind::Results))
}

/// The type of the second part, which a parameter has.
fn second_type(types: &Types, parts: &[Option<TypedNode>]) -> Option<TypeId>
    requires { AllKnown (length types.now.shapes) parts.now }
    ensures known { IfSome result (λ t. t < length types.now.shapes) }
    ensures tree { option_map (type_of types.now.shapes) result ≡ part_type (second (map (option_map (seen types.now)) parts.now)) }
{
    match parts {
        [_, Some(part), ..] => named_type(types, sort_of(types, part)),
        _ => None,
    }
}

/// The type of an entry: its own, or that of the next entry where it is a name alone.
fn entry_type(types: &Types, sort: &Sort, next: Option<TypeId>) -> Option<TypeId>
    requires sort { KnownSort (length types.now.shapes) sort.now }
    requires next { IfSome next (λ t. t < length types.now.shapes) }
    ensures known { IfSome result (λ t. t < length types.now.shapes) }
    ensures tree { option_map (type_of types.now.shapes) result ≡ entry_type (sort_seen types.now sort.now) (option_map (type_of types.now.shapes) next) }
{
    match sort {
        Sort::Nothing => next,
        Sort::Type(of) => Some(*of),
        _ => None,
    }
}

/// The type of a parameter, or of another entry: its own, or that of the next entry where it is a name alone.
pub fn entry(types: &Types, node: &TypedNode, next: Option<TypeId>) -> Option<TypeId>
    requires node { Known (length types.now.shapes) node.now }
    requires next { IfSome next (λ t. t < length types.now.shapes) }
    ensures known { IfSome result (λ t. t < length types.now.shapes) }
    ensures tree { option_map (type_of types.now.shapes) result ≡ entry_of (seen types.now node.now) (option_map (type_of types.now.shapes) next) }
{
    if is_parameter(form_of(types, node)) {
        second_type(types, parts_of(types, node))
    } else {
        entry_type(types, sort_of(types, node), next)
    }
}

/// The types of parameters or results, if each has one (Go specification, "Function types").
fn entries(
    alloc: Global,
    types: &Types,
    parts: &[Option<TypedNode>],
) -> Result<Option<Vec<TypeId>>, Memory>
    requires { AllKnown (length types.now.shapes) parts.now }
    ensures tree { IfOk result (λ r. option_map (λ v. map (type_of types.now.shapes) v.items) r ≡ all_types (entry_types (map (option_map (seen types.now)) parts.now))) }
    ensures known { IfOk result (λ r. IfSome r (λ v. AllByRecursion (λ p. p < length types.now.shapes) v.items)) }
{
    let mut found = Vec::new(alloc);
    let mut next = None;
    for number in (0..parts.len()).rev() {
        let Some(part) = &parts[number] else { continue };
        next = entry(types, part, next);
        match next {
            Some(of) => found.push(of)?,
            None => return Ok(None),
        }
    }
    found.reverse();
    Ok(Some(found))
}

/// The types of the results: of a list in parentheses, of one type, or none.
fn results(
    alloc: Global,
    types: &Types,
    part: Option<&TypedNode>,
) -> Result<Option<Vec<TypeId>>, Memory>
    requires { IfSome part (λ n. Known (length types.now.shapes) n.now) }
    ensures tree { IfOk result (λ r. option_map (λ v. map (type_of types.now.shapes) v.items) r ≡ all_types (result_types (option_map (λ n. seen types.now n.now) part.entry))) }
    ensures known { IfOk result (λ r. IfSome r (λ v. AllByRecursion (λ p. p < length types.now.shapes) v.items)) }
{
    match part {
        None => Ok(Some(Vec::new(alloc))),
        Some(part) => one_or_more(alloc, types, part),
    }
}

fn one_or_more(
    alloc: Global,
    types: &Types,
    part: &TypedNode,
) -> Result<Option<Vec<TypeId>>, Memory>
    requires { Known (length types.now.shapes) part.now }
    ensures tree { IfOk result (λ r. option_map (λ v. map (type_of types.now.shapes) v.items) r ≡ all_types (result_types (Some (seen types.now part.now)))) }
    ensures known { IfOk result (λ r. IfSome r (λ v. AllByRecursion (λ p. p < length types.now.shapes) v.items)) }
{
    if is_result_list(form_of(types, part)) {
        return entries(alloc, types, parts_of(types, part));
    }
    match named_type(types, sort_of(types, part)) {
        Some(of) => {
            let mut one = Vec::new(alloc);
            one.push(of)?;
            Ok(Some(one))
        }
        None => Ok(None),
    }
}

/// The types of the parameters that a part has.
fn parameters(
    alloc: Global,
    types: &Types,
    part: Option<&TypedNode>,
) -> Result<Option<Vec<TypeId>>, Memory>
    requires { IfSome part (λ n. Known (length types.now.shapes) n.now) }
    ensures tree { IfOk result (λ r. option_map (λ v. map (type_of types.now.shapes) v.items) r ≡ all_types (entry_types (parts_in (option_map (λ n. seen types.now n.now) part.entry)))) }
    ensures known { IfOk result (λ r. IfSome r (λ v. AllByRecursion (λ p. p < length types.now.shapes) v.items)) }
{
    match part {
        Some(part) => entries(alloc, types, parts_of(types, part)),
        None => Ok(Some(Vec::new(alloc))),
    }
}

/// The type of functions with these parameters and results.
fn function_sort(
    types: &mut Types,
    params: Option<Vec<TypeId>>,
    results: Option<Vec<TypeId>>,
) -> Result<Sort, Memory>
    requires params { IfSome params (λ v. AllByRecursion (λ p. p < length types.old.shapes) v.items) }
    requires results { IfSome results (λ v. AllByRecursion (λ p. p < length types.old.shapes) v.items) }
    ensures grows { Grows types.old types.new }
    ensures sort { IfOk result (λ s. sort_seen types.new s ≡ type_sort (function_of (option_map (λ v. map (type_of types.old.shapes) v.items) params) (option_map (λ v. map (type_of types.old.shapes) v.items) results))) }
    ensures known { IfOk result (KnownSort (length types.new.shapes)) }
{
    types.count();
    match (params, results) {
        (Some(params), Some(results)) => {
            let shape = Shape::Func {
                params: TypeIds::of(params),
                results: TypeIds::of(results),
            };
            shape_sort(types, &shape)
        }
        _ => Ok(Sort::Unknown),
    }
}

/// What a signature stands for: the type of its functions (Go specification, "Function types").
///
/// # Errors
///
/// Want of memory. The table grows by the type at most, whatever is answered.
pub fn signature(
    alloc: Global,
    types: &mut Types,
    parts: &[Option<TypedNode>],
) -> Result<Sort, Memory>
    requires { AllKnown (length types.old.shapes) parts.now }
    ensures grows { Grows types.old types.new }
    ensures sort { IfOk result (λ s. sort_seen types.new s ≡ on_optional sort.Unknown (λ ps rs. type_sort (signature_type ps rs)) (map (option_map (seen types.old)) parts.now)) }
    ensures known { IfOk result (KnownSort (length types.new.shapes)) }
{
    types.count();
    match parts {
        [params, result] => {
            let params = parameters(alloc, types, params.as_ref())?;
            let results = results(alloc, types, result.as_ref())?;
            function_sort(types, params, results)
        }
        _ => Ok(Sort::Unknown),
    }
}
