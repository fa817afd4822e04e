//! `make`.
ghost use Rattle.std.specs.Prelude.{◌≡◌, ◌&&◌, ◌∷◌, ◌++◌, if◌then◌else◌, nat_le, IfOk, is_some, length};
ghost use Rattle.std.specs.List.{list_all};
ghost use Rattle.std.specs.Option.{option_map};
ghost use Rattle.go_base.specs.Gives.{Gives};
ghost use Rattle.go_types.specs.Tables.{rights_of};
ghost use Rattle.go_typed.specs.Trees.{sort_of};
ghost use Rattle.go_typed.specs.Views.{seen, sort_seen, Known, KnownSort};
ghost use Rattle.go_base.specs.declared.fault.FaultCode.TheVariants as code;
ghost use Rattle.go_exprs_rules.specs.Faults.{least, judged, fault_at};
ghost use Rattle.go_exprs_rules.specs.Seen.{AreBasics, one_fault};
ghost use Rattle.go_exprs_rules.specs.Sorts.{constant_of, slice_element, underlying_in, named_type, is_whole};
ghost use Rattle.go_exprs_rules.specs.Indexes.{bound_failing, is_greater, disordered, value_or_unknown};
ghost use Rattle.go_exprs_rules.specs.Calls.{count_unless, sizes_failing, make_failing, made_sort};
ghost use Rattle.go_exprs_calls.specs.Shown.{shown, AllShownKnown};

use crate::arguments::divided;
use go_base::FaultCode;
use go_constants::Const;
use go_exprs_rules::fault::earlier;
use go_exprs_rules::index::bound;
use go_exprs_rules::nodes::{fault_at, sort_of};
use go_exprs_rules::shift::is_whole;
use go_exprs_rules::sorts::constant_of;
use go_exprs_rules::{Basics, Place, TypeFault};
use go_typed::{Sort, TypedNode};
use go_types::{Shape, Types};
use go_types_relations::underlying;

fn is_slice_type(types: &Types, sort: &Sort) -> bool
    requires { KnownSort (length types.now.shapes) sort.now }
    ensures { result ≡ is_some (slice_element (underlying_in (rights_of types.now) (named_type (sort_seen types.now sort.now)))) }
{
    match sort {
        Sort::Type(of) => matches!(underlying(types, *of), Some(Shape::Slice { .. })),
        _ => false,
    }
}

fn made(types: &Types, sort: &Sort) -> Sort
    requires { KnownSort (length types.now.shapes) sort.now }
    ensures tree { sort_seen types.now result ≡ value_or_unknown (named_type (sort_seen types.now sort.now)) }
    ensures known { KnownSort (length types.now.shapes) result }
{
    match sort {
        Sort::Type(of) => Sort::Value(*of),
        _ => Sort::Unknown,
    }
}

fn is_whole_number(types: &Types, node: &TypedNode) -> bool
    requires { Known (length types.now.shapes) node.now }
    ensures { result ≡ is_whole (rights_of types.now) (sort_of (seen types.now node.now)) }
{
    is_whole(types, sort_of(types, node))
}

fn are_whole(types: &Types, nodes: &[&TypedNode]) -> bool
    requires { AllShownKnown (length types.now.shapes) nodes.now }
    ensures { result ≡ list_all (λ n. is_whole (rights_of types.now) (sort_of n)) (shown types.now nodes.now) }
{
    for node in nodes {
        if !is_whole_number(types, node) {
            return false;
        }
    }
    true
}

fn is_greater(one: Option<&Const>, other: Option<&Const>) -> bool
    ensures { result ≡ is_greater (option_map (λ c. c.now) one.entry) (option_map (λ c. c.now) other.entry) }
{
    match (one, other) {
        (Some(Const::Int { value, .. }), Some(Const::Int { value: bound, .. })) => *value > *bound,
        _ => false,
    }
}

/// The fault of a length that is a constant above the capacity.
fn disordered(types: &Types, low: &TypedNode, high: &TypedNode) -> Option<TypeFault>
    requires low { Known (length types.now.shapes) low.now }
    requires high { Known (length types.now.shapes) high.now }
    ensures { result ≡ least (disordered (Some (seen types.now low.now)) (Some (seen types.now high.now))) }
{
    let length = constant_of(types, sort_of(types, low));
    let capacity = constant_of(types, sort_of(types, high));
    if is_greater(length, capacity) {
        Some(fault_at(types, low, FaultCode::ConstIndex))
    } else {
        None
    }
}

/// The least fault of two sizes by themselves.
#[tactic(auto, using(go_exprs_rules::proofs::Firsts::least_append))]
fn two_sizes(types: &Types, basics: Basics, one: &TypedNode, other: &TypedNode) -> Option<TypeFault>
    requires basics { AreBasics types.now basics }
    requires one { Known (length types.now.shapes) one.now }
    requires other { Known (length types.now.shapes) other.now }
    ensures { let rights = rights_of types.now in result ≡ least (bound_failing rights None (seen types.now one.now) ++ bound_failing rights None (seen types.now other.now)) }
{
    earlier(
        bound(types, basics, None, one),
        bound(types, basics, None, other),
    )
}

/// The least fault of two or more sizes: of two constants that are out of order the first has one.
#[tactic(auto, using(go_exprs_rules::proofs::Firsts::least_append))]
fn two_or_more_fault(
    types: &Types,
    basics: Basics,
    size: &TypedNode,
    capacity: &TypedNode,
    others: &[&TypedNode],
) -> Option<TypeFault>
    requires basics { AreBasics types.now basics }
    requires size { Known (length types.now.shapes) size.now }
    requires capacity { Known (length types.now.shapes) capacity.now }
    requires others { AllShownKnown (length types.now.shapes) others.now }
    ensures { result ≡ least (sizes_failing (rights_of types.now) (seen types.now size.now ∷ seen types.now capacity.now ∷ shown types.now others.now)) }
{
    let fault = two_sizes(types, basics, size, capacity);
    match divided(types, others) {
        Some(_) => fault,
        None => earlier(fault, disordered(types, size, capacity)),
    }
}

/// The least fault of one or more sizes.
fn one_or_more_fault(
    types: &Types,
    basics: Basics,
    size: &TypedNode,
    others: &[&TypedNode],
) -> Option<TypeFault>
    requires basics { AreBasics types.now basics }
    requires size { Known (length types.now.shapes) size.now }
    requires others { AllShownKnown (length types.now.shapes) others.now }
    ensures { result ≡ least (sizes_failing (rights_of types.now) (seen types.now size.now ∷ shown types.now others.now)) }
{
    match divided(types, others) {
        Some((capacity, others)) => two_or_more_fault(types, basics, size, capacity, others),
        None => bound(types, basics, None, size),
    }
}

/// The least fault of sizes that are integers.
fn sizes_fault(types: &Types, basics: Basics, sizes: &[&TypedNode]) -> Option<TypeFault>
    requires basics { AreBasics types.now basics }
    requires sizes { AllShownKnown (length types.now.shapes) sizes.now }
    ensures { result ≡ least (sizes_failing (rights_of types.now) (shown types.now sizes.now)) }
{
    match divided(types, sizes) {
        Some((size, others)) => one_or_more_fault(types, basics, size, others),
        None => None,
    }
}

/// Whether there is one size, or two.
fn are_one_or_two(types: &Types, sizes: &[&TypedNode]) -> bool
    ensures count { let n = length (shown types.now sizes.now) in result ≡ (nat_le 1 n && nat_le n 2) }
    ensures same { let n = length sizes.now in result ≡ (nat_le 1 n && nat_le n 2) }
{
    1 <= sizes.len() && sizes.len() <= 2
}

/// The fault of a number of sizes that is neither one nor two.
fn count_fault(types: &Types, place: Place, sizes: &[&TypedNode]) -> Option<TypeFault>
    ensures { let n = length (shown types.now sizes.now) in result ≡ least (count_unless (nat_le 1 n && nat_le n 2) place.first place.last) }
{
    if are_one_or_two(types, sizes) {
        None
    } else {
        Some(place.fault(FaultCode::Count))
    }
}

/// The least fault of what is made and of its sizes, beside that of their number.
fn made_fault(
    types: &Types,
    basics: Basics,
    place: Place,
    of: &Sort,
    sizes: &[&TypedNode],
) -> Option<TypeFault>
    requires basics { AreBasics types.now basics }
    requires of { KnownSort (length types.now.shapes) of.now }
    requires sizes { AllShownKnown (length types.now.shapes) sizes.now }
    ensures { let rights = rights_of types.now in let xs = shown types.now sizes.now in
        result ≡ least (if is_some (slice_element (underlying_in rights (named_type (sort_seen types.now of.now)))) && list_all (λ n. is_whole rights (sort_of n)) xs then sizes_failing rights xs else fault_at code.Operands place.first place.last) }
{
    if is_slice_type(types, of) && are_whole(types, sizes) {
        sizes_fault(types, basics, sizes)
    } else {
        Some(place.fault(FaultCode::Operands))
    }
}

/// `make` of a type (Go specification, "Making slices, maps and channels").
#[tactic(auto, using(go_exprs_rules::proofs::Firsts::least_append))]
fn make_of(
    types: &Types,
    basics: Basics,
    place: Place,
    first: &TypedNode,
    sizes: &[&TypedNode],
) -> Result<Sort, TypeFault>
    requires basics { AreBasics types.now basics }
    requires first { Known (length types.now.shapes) first.now }
    requires sizes { AllShownKnown (length types.now.shapes) sizes.now }
    ensures exact { let rights = rights_of types.now in let xs = seen types.now first.now ∷ shown types.now sizes.now in
        Gives (sort_seen types.now) one_fault result (judged (least (make_failing rights place.first place.last xs)) (made_sort xs)) }
    ensures known { IfOk result (KnownSort (length types.now.shapes)) }
{
    let of = sort_of(types, first);
    let fault = earlier(
        count_fault(types, place, sizes),
        made_fault(types, basics, place, of, sizes),
    );
    match fault {
        Some(fault) => Err(fault),
        None => Ok(made(types, of)),
    }
}

/// `make`.
pub(crate) fn make(
    types: &Types,
    basics: Basics,
    place: Place,
    nodes: &[&TypedNode],
) -> Result<Sort, TypeFault>
    requires basics { AreBasics types.now basics }
    requires nodes { AllShownKnown (length types.now.shapes) nodes.now }
    ensures exact { let rights = rights_of types.now in let xs = shown types.now nodes.now in
        Gives (sort_seen types.now) one_fault result (judged (least (make_failing rights place.first place.last xs)) (made_sort xs)) }
    ensures known { IfOk result (KnownSort (length types.now.shapes)) }
{
    match divided(types, nodes) {
        Some((first, sizes)) => make_of(types, basics, place, first, sizes),
        None => Err(place.fault(FaultCode::Count)),
    }
}
