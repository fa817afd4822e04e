//! Slice expressions.
ghost use Rattle.std.specs.Prelude.{◌≡◌, ◌<◌, ◌+◌, ◌++◌, Some, IfOk, IfSome, is_some, length};
ghost use Rattle.std.specs.Option.{option_map};
ghost use Rattle.go_base.specs.Gives.{Gives};
ghost use Rattle.go_types.specs.Tables.{type_of, rights_of};
ghost use Rattle.go_types_relations.specs.Tests.{underlying_of};
ghost use Rattle.go_typed.specs.Views.{seen, sort_seen, Known, KnownSort};
ghost use Rattle.go_exprs_rules.specs.Faults.{least, judged};
ghost use Rattle.go_exprs_rules.specs.Seen.{AreBasics, one_fault};
ghost use Rattle.go_exprs_rules.specs.Sorts.{constant_of, form_of_value, slice_element};
ghost use Rattle.go_exprs_rules.specs.Indexes.{optional_bound, is_greater, disordered, text_length, whole_or_absent, bounds_failing, slice_failing, slice_sort};

use go_base::FaultCode;
use go_constants::Const;
use go_exprs_rules::basics::default_type;
use go_exprs_rules::fault::earlier;
use go_exprs_rules::index::bound;
use go_exprs_rules::nodes::{fault_at, sort_of};
use go_exprs_rules::shift::is_whole;
use go_exprs_rules::sorts::{const_kind, constant_of, family, is_family, own_type, untyped_kind};
use go_exprs_rules::{Basics, Family, Place, TypeFault};
use go_typed::{Sort, TypedNode};
use go_types::{Shape, TypeId, Types};
use go_types_relations::underlying;

/// The fault of a bound that may be left out.
fn optional_bound(
    types: &Types,
    basics: Basics,
    limit: Option<u64>,
    node: Option<&TypedNode>,
) -> Option<TypeFault>
    requires basics { AreBasics types.now basics }
    requires node { IfSome node (λ n. Known (length types.now.shapes) n.now) }
    ensures { result ≡ least (optional_bound (rights_of types.now) limit (option_map (λ n. seen types.now n.now) node.entry)) }
{
    match node {
        Some(node) => bound(types, basics, limit, node),
        None => None,
    }
}

/// Whether both are constants, the first above the second.
fn is_greater(one: Option<&Const>, other: Option<&Const>) -> bool
    ensures { result ≡ is_greater (option_map (λ c. c.now) one.entry) (option_map (λ c. c.now) other.entry) }
{
    match (one, other) {
        (Some(Const::Int { value: one, .. }), Some(Const::Int { value: other, .. })) => one > other,
        _ => false,
    }
}

/// The fault of two constant bounds that are out of order.
fn disordered(types: &Types, low: Option<&TypedNode>, high: Option<&TypedNode>) -> Option<TypeFault>
    requires low { IfSome low (λ n. Known (length types.now.shapes) n.now) }
    requires high { IfSome high (λ n. Known (length types.now.shapes) n.now) }
    ensures { result ≡ least (disordered (option_map (λ n. seen types.now n.now) low.entry) (option_map (λ n. seen types.now n.now) high.entry)) }
{
    match (low, high) {
        (Some(low), Some(high)) => disorder(types, low, high),
        _ => None,
    }
}

fn disorder(types: &Types, low: &TypedNode, high: &TypedNode) -> Option<TypeFault>
    requires low { Known (length types.now.shapes) low.now }
    requires high { Known (length types.now.shapes) high.now }
    ensures { result ≡ least (disordered (Some (seen types.now low.now)) (Some (seen types.now high.now))) }
{
    let one = constant_of(types, sort_of(types, low));
    let other = constant_of(types, sort_of(types, high));
    if is_greater(one, other) {
        Some(fault_at(types, low, FaultCode::ConstIndex))
    } else {
        None
    }
}

/// Whether a bound is an integer, or left out.
fn whole_or_absent(types: &Types, node: Option<&TypedNode>) -> bool
    requires { IfSome node (λ n. Known (length types.now.shapes) n.now) }
    ensures { result ≡ whole_or_absent (rights_of types.now) (option_map (λ n. seen types.now n.now) node.entry) }
{
    match node {
        Some(node) => is_whole(types, sort_of(types, node)),
        None => true,
    }
}

/// The fault of the one bound or the other.
#[tactic(auto, using(go_exprs_rules::proofs::Firsts::least_append))]
fn either_bound(
    types: &Types,
    basics: Basics,
    limit: Option<u64>,
    low: Option<&TypedNode>,
    high: Option<&TypedNode>,
) -> Option<TypeFault>
    requires basics { AreBasics types.now basics }
    requires low { IfSome low (λ n. Known (length types.now.shapes) n.now) }
    requires high { IfSome high (λ n. Known (length types.now.shapes) n.now) }
    ensures { result ≡ least (optional_bound (rights_of types.now) limit (option_map (λ n. seen types.now n.now) low.entry) ++ optional_bound (rights_of types.now) limit (option_map (λ n. seen types.now n.now) high.entry)) }
{
    let fault = optional_bound(types, basics, limit, low);
    earlier(fault, optional_bound(types, basics, limit, high))
}

/// The fault of the bounds: of one of them, or of both where they are out of order.
#[tactic(auto, using(go_exprs_rules::proofs::Firsts::least_append))]
fn bounds(
    types: &Types,
    basics: Basics,
    limit: Option<u64>,
    low: Option<&TypedNode>,
    high: Option<&TypedNode>,
) -> Option<TypeFault>
    requires basics { AreBasics types.now basics }
    requires low { IfSome low (λ n. Known (length types.now.shapes) n.now) }
    requires high { IfSome high (λ n. Known (length types.now.shapes) n.now) }
    ensures { result ≡ least (bounds_failing (rights_of types.now) limit (option_map (λ n. seen types.now n.now) low.entry) (option_map (λ n. seen types.now n.now) high.entry)) }
{
    let fault = either_bound(types, basics, limit, low, high);
    earlier(fault, disordered(types, low, high))
}

/// Whether it is a value of a slice type.
fn is_slice(types: &Types, sort: &Sort) -> bool
    requires { KnownSort (length types.now.shapes) sort.now }
    ensures { result ≡ is_some (slice_element (form_of_value (rights_of types.now) (sort_seen types.now sort.now))) }
{
    match own_type(types, sort) {
        Some(of) => is_slice_type(types, of),
        None => false,
    }
}

fn is_slice_type(types: &Types, of: TypeId) -> bool
    requires { of < length types.now.shapes }
    ensures { result ≡ is_some (slice_element (underlying_of (rights_of types.now) (type_of types.now.shapes of))) }
{
    matches!(underlying(types, of), Some(Shape::Slice { .. }))
}

/// The bound of the bounds of a constant text: its length may be one.
fn text_limit(types: &Types, operand: &Sort) -> Option<u64>
    ensures { result ≡ option_map (λ n. n + 1) (text_length (constant_of (sort_seen types.now operand.now))) }
{
    match constant_of(types, operand) {
        Some(Const::Text(bytes)) => Some(bytes.as_slice().len() as u64 + 1),
        _ => None,
    }
}

/// What a part of the operand stands for: a value of its type, or of its default type.
fn sliced(types: &Types, basics: Basics, operand: &Sort) -> Sort
    requires basics { AreBasics types.now basics }
    requires operand { KnownSort (length types.now.shapes) operand.now }
    ensures tree { sort_seen types.now result ≡ slice_sort (sort_seen types.now operand.now) }
    ensures known { KnownSort (length types.now.shapes) result }
{
    match operand {
        Sort::Value(of) => Sort::Value(*of),
        Sort::Constant(of, _) => Sort::Value(of.id()),
        Sort::Open(kind) => Sort::Value(default_type(types, basics, untyped_kind(*kind))),
        Sort::OpenConstant(constant) => {
            Sort::Value(default_type(types, basics, const_kind(constant.get())))
        }
        _ => Sort::Unknown,
    }
}

/// What a slice expression stands for (Go specification, "Slice expressions"), or the fault of its rules: `Operands` where it is
/// no slice or text or a bound is no integer, `Representable` or `ConstIndex` at a constant bound, of two that are out of order
/// at the first.
pub fn slice(
    types: &Types,
    basics: Basics,
    place: Place,
    operand: &Sort,
    low: Option<&TypedNode>,
    high: Option<&TypedNode>,
) -> Result<Sort, TypeFault>
    requires basics { AreBasics types.now basics }
    requires operand { KnownSort (length types.now.shapes) operand.now }
    requires low { IfSome low (λ n. Known (length types.now.shapes) n.now) }
    requires high { IfSome high (λ n. Known (length types.now.shapes) n.now) }
    ensures exact { let x = sort_seen types.now operand.now in let l = option_map (λ n. seen types.now n.now) low.entry in let h = option_map (λ n. seen types.now n.now) high.entry in
        Gives (sort_seen types.now) one_fault result (judged (least (slice_failing (rights_of types.now) place.first place.last x l h)) (slice_sort x)) }
    ensures known { IfOk result (KnownSort (length types.now.shapes)) }
{
    let text = is_family(Family::Texts, family(types, operand));
    let sliceable = text || is_slice(types, operand);
    if !(sliceable && whole_or_absent(types, low) && whole_or_absent(types, high)) {
        return Err(place.fault(FaultCode::Operands));
    }
    match bounds(types, basics, text_limit(types, operand), low, high) {
        Some(fault) => Err(fault),
        None => Ok(sliced(types, basics, operand)),
    }
}
