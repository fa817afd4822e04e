//! Array types and slice types.
ghost use Rattle.std.specs.Prelude.{◌≡◌, ℕ, ◌<◌, Option, Some, IfOk, IfSome, [], length, map};
ghost use Rattle.std.specs.Option.{option_map};
ghost use Rattle.go_base.specs.Gives.{Gives};
ghost use Rattle.go_types.specs.Tables.{type_of, rights_of};
ghost use Rattle.go_types_relations.specs.Extends.{Grows};
ghost use Rattle.go_types.specs.Relations.{array_scalars};
ghost use Rattle.go_types.specs.Verdicts.{kept_count};
ghost use Rattle.go_typed.specs.Trees as sort;
ghost use Rattle.go_typed.specs.Views.{seen, sort_seen, AllKnown, Known, KnownSort};
ghost use Rattle.go_exprs_rules.specs.Faults.{least, judged, refusal_of};
ghost use Rattle.go_exprs_rules.specs.Seen.{AreBasics};
ghost use Rattle.go_exprs_rules.specs.Sorts.{named_type};
ghost use Rattle.go_exprs_rules.specs.Tables.{on_optional};
ghost use Rattle.go_exprs_rules.specs.TypeNodes.{exceeds, kept_length, length_in, over_limit, limit_failing, length_failing, sequence_failing, sequence_type, part_type, type_sort};

use crate::names::shape_sort;
use go_base::{FaultCode, Memory};
use go_constants::Const;
use go_exprs_rules::fault::earlier;
use go_exprs_rules::nodes::{fault_at, sort_of, unrepresented};
use go_exprs_rules::shift::{is_negative, is_whole};
use go_exprs_rules::sorts::{constant_of, is_constant};
use go_exprs_rules::{Basics, Place, TypeError, TypeFault};
use go_typed::{Sort, TypedNode};
use go_types::{Shape, TypeId, Types};
use go_types_relations::scalars;

/// An array type has at most so many scalars.
const MOST_SCALARS: u64 = 1_048_576;

/// The type that a node in a type's place is.
pub fn named_type(_types: &Types, sort: &Sort) -> Option<TypeId>
    requires { KnownSort (length _types.now.shapes) sort.now }
    ensures known { IfSome result (λ t. t < length _types.now.shapes) }
    ensures tree { option_map (type_of _types.now.shapes) result ≡ named_type (sort_seen _types.now sort.now) }
{
    match sort {
        Sort::Type(of) => Some(*of),
        _ => None,
    }
}

/// The type that a part in a type's place is, if there is one.
pub fn part_type(types: &Types, part: Option<&TypedNode>) -> Option<TypeId>
    requires { IfSome part (λ n. Known (length types.now.shapes) n.now) }
    ensures known { IfSome result (λ t. t < length types.now.shapes) }
    ensures tree { option_map (type_of types.now.shapes) result ≡ part_type (option_map (λ n. seen types.now n.now) part.entry) }
{
    match part {
        Some(part) => named_type(types, sort_of(types, part)),
        None => None,
    }
}

/// The length that an integer constant is, where it isn't negative; the table keeps it up to `u32::MAX`.
fn kept_length(constant: Option<&Const>) -> Option<u32>
    ensures { result ≡ option_map kept_length (length_in (option_map (λ c. c.now) constant.entry)) }
{
    match constant {
        Some(Const::Int { value, .. }) => match u32::try_from(*value) {
            Ok(len) => Some(len),
            Err(_) => if *value < 0 { None } else { Some(u32::MAX) },
        },
        _ => None,
    }
}

/// How many scalars an array of this length has, whose elements have so many each; up to `u64::MAX`.
fn product(len: u32, scalars: u64) -> u64
    ensures { (n : ℕ) → scalars ≡ kept_count n → result ≡ kept_count (array_scalars len n) }
{
    let len = u64::from(len);
    if scalars == 0 {
        len
    } else {
        len.saturating_mul(scalars)
    }
}

/// Whether an array of this length has too many scalars.
#[tactic(auto, using(crate::proofs::Lengths::over_same))]
fn exceeds(len: u32, scalars: u64) -> bool
    ensures { (n m : ℕ) → len ≡ kept_length n → scalars ≡ kept_count m → result ≡ exceeds (Some (array_scalars n m)) }
{
    product(len, scalars) > MOST_SCALARS
}

/// The fault of an array type of this length that is known to have too many scalars.
fn over_limit(
    types: &Types,
    place: Place,
    len: Option<u32>,
    element: Option<TypeId>,
) -> Option<TypeFault>
    requires { IfSome element (λ t. t < length types.now.shapes) }
    ensures { (n : Option ℕ) → len ≡ option_map kept_length n → result ≡ least (over_limit (rights_of types.now) place.first place.last n (option_map (type_of types.now.shapes) element)) }
{
    match (len, element) {
        (Some(len), Some(element)) => match scalars(types, element) {
            Some(scalars) if exceeds(len, scalars) => Some(place.fault(FaultCode::Limit)),
            _ => None,
        },
        _ => None,
    }
}

/// The same where the limit is judged.
fn limit(
    types: &Types,
    place: Place,
    limits: bool,
    len: Option<u32>,
    element: Option<TypeId>,
) -> Option<TypeFault>
    requires { IfSome element (λ t. t < length types.now.shapes) }
    ensures { (n : Option ℕ) → len ≡ option_map kept_length n → result ≡ least (limit_failing (rights_of types.now) limits place.first place.last n (option_map (type_of types.now.shapes) element)) }
{
    if limits {
        over_limit(types, place, len, element)
    } else {
        None
    }
}

/// The fault of the length of an array type: `Operands` where it is no integer constant, `ConstIndex` where it is negative,
/// `Representable` where `int` doesn't have it; and `Limit` at the type.
#[tactic(auto, using(go_exprs_rules::proofs::Firsts::least_append))]
fn length_fault(
    types: &Types,
    basics: Basics,
    place: Place,
    limits: bool,
    len: &TypedNode,
    element: Option<TypeId>,
) -> Option<TypeFault>
    requires basics { AreBasics types.now basics }
    requires len { Known (length types.now.shapes) len.now }
    requires element { IfSome element (λ t. t < length types.now.shapes) }
    ensures { result ≡ least (length_failing (rights_of types.now) limits place.first place.last (seen types.now len.now) (option_map (type_of types.now.shapes) element)) }
{
    let sort = sort_of(types, len);
    if !(is_constant(types, sort) && is_whole(types, sort)) {
        return Some(fault_at(types, len, FaultCode::Operands));
    }
    let constant = constant_of(types, sort);
    if is_negative(constant) {
        return Some(fault_at(types, len, FaultCode::ConstIndex));
    }
    earlier(
        unrepresented(types, basics.int, len),
        limit(types, place, limits, kept_length(constant), element),
    )
}

/// The fault of an array type or a slice type.
fn sequence_fault(
    types: &Types,
    basics: Basics,
    place: Place,
    limits: bool,
    len: Option<&TypedNode>,
    element: Option<&TypedNode>,
) -> Option<TypeFault>
    requires basics { AreBasics types.now basics }
    requires len { IfSome len (λ n. Known (length types.now.shapes) n.now) }
    requires element { IfSome element (λ n. Known (length types.now.shapes) n.now) }
    ensures { result ≡ least (sequence_failing (rights_of types.now) limits place.first place.last (option_map (λ n. seen types.now n.now) len.entry) (option_map (λ n. seen types.now n.now) element.entry)) }
{
    match len {
        Some(len) => length_fault(types, basics, place, limits, len, part_type(types, element)),
        None => None,
    }
}

/// The type of arrays of this length.
fn array_sort(types: &mut Types, len: &TypedNode, element: TypeId) -> Result<Sort, Memory>
    requires len { Known (length types.old.shapes) len.now }
    requires element { element < length types.old.shapes }
    ensures grows { Grows types.old types.new }
    ensures sort { IfOk result (λ s. sort_seen types.new s ≡ type_sort (sequence_type (Some (seen types.old len.now)) (Some (type_of types.old.shapes element)))) }
    ensures known { IfOk result (KnownSort (length types.new.shapes)) }
{
    types.count();
    match kept_length(constant_of(types, sort_of(types, len))) {
        Some(len) => shape_sort(
            types,
            &Shape::Array {
                length: len,
                elem: element,
            },
        ),
        None => Ok(Sort::Unknown),
    }
}

/// The type of arrays of this length, or of slices where there is none.
fn sequence_sort(
    types: &mut Types,
    len: Option<&TypedNode>,
    element: Option<&TypedNode>,
) -> Result<Sort, Memory>
    requires len { IfSome len (λ n. Known (length types.old.shapes) n.now) }
    requires element { IfSome element (λ n. Known (length types.old.shapes) n.now) }
    ensures grows { Grows types.old types.new }
    ensures sort { IfOk result (λ s. sort_seen types.new s ≡ type_sort (sequence_type (option_map (λ n. seen types.old n.now) len.entry) (part_type (option_map (λ n. seen types.old n.now) element.entry)))) }
    ensures known { IfOk result (KnownSort (length types.new.shapes)) }
{
    types.count();
    match (len, part_type(types, element)) {
        (Some(len), Some(element)) => array_sort(types, len, element),
        (None, Some(element)) => shape_sort(types, &Shape::Slice { elem: element }),
        (_, None) => Ok(Sort::Unknown),
    }
}

fn judged_sequence(
    types: &mut Types,
    basics: Basics,
    place: Place,
    limits: bool,
    len: Option<&TypedNode>,
    element: Option<&TypedNode>,
) -> Result<Sort, TypeError>
    requires basics { AreBasics types.old basics }
    requires len { IfSome len (λ n. Known (length types.old.shapes) n.now) }
    requires element { IfSome element (λ n. Known (length types.old.shapes) n.now) }
    ensures grows { Grows types.old types.new }
    ensures exact { let n = option_map (λ n. seen types.old n.now) len.entry in let e = option_map (λ n. seen types.old n.now) element.entry in
        Gives (sort_seen types.new) refusal_of result (judged (least (sequence_failing (rights_of types.old) limits place.first place.last n e)) (type_sort (sequence_type n (part_type e)))) }
    ensures known { IfOk result (KnownSort (length types.new.shapes)) }
{
    types.count();
    match sequence_fault(types, basics, place, limits, len, element) {
        Some(fault) => Err(TypeError::Fault(fault)),
        None => match sequence_sort(types, len, element) {
            Ok(sort) => Ok(sort),
            Err(_) => Err(TypeError::Memory),
        },
    }
}

/// What an array type or a slice type stands for (Go specification, "Array types", "Slice types"), or the fault of its length.
/// The limit on scalars is judged where `limits` says so.
///
/// # Errors
///
/// A fault, or want of memory. The table grows by the type at most, whatever is answered.
pub fn sequence(
    types: &mut Types,
    basics: Basics,
    place: Place,
    limits: bool,
    parts: &[Option<TypedNode>],
) -> Result<Sort, TypeError>
    requires basics { AreBasics types.old basics }
    requires parts { AllKnown (length types.old.shapes) parts.now }
    ensures grows { Grows types.old types.new }
    ensures exact { let rights = rights_of types.old in let ys = map (option_map (seen types.old)) parts.now in
        Gives (sort_seen types.new) refusal_of result (judged (least (on_optional [] (sequence_failing rights limits place.first place.last) ys)) (on_optional sort.Unknown (λ n e. type_sort (sequence_type n (part_type e))) ys)) }
    ensures known { IfOk result (KnownSort (length types.new.shapes)) }
{
    types.count();
    match parts {
        [len, element] => judged_sequence(
            types,
            basics,
            place,
            limits,
            len.as_ref(),
            element.as_ref(),
        ),
        _ => Ok(Sort::Unknown),
    }
}
