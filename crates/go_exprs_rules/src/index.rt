//! Index expressions and slice expressions.
ghost use Rattle.std.specs.Prelude.{◌≡◌, ◌<◌, ◌+◌, IfOk, IfSome, is_some, length, pos};
ghost use Rattle.std.specs.Option.{option_map};
ghost use Rattle.go_base.specs.Gives.{Gives};
ghost use Rattle.go_types.specs.Tables.{type_of, rights_of};
ghost use Rattle.go_typed.specs.Trees.{sort_of};
ghost use Rattle.go_typed.specs.Views.{seen, sort_seen, Known, KnownSort};
ghost use Rattle.go_exprs_rules.specs.Faults.{least, judged};
ghost use Rattle.go_exprs_rules.specs.Seen.{AreBasics, one_fault};
ghost use Rattle.go_exprs_rules.specs.Sorts.{constant_of, form_of_value, element_of, slice_element, array_length};
ghost use Rattle.go_exprs_rules.specs.Indexes.{below_limit, outside, bound_failing, text_length, index_failing, index_sort};

use crate::basics::Basics;
use crate::family::Family;
use crate::fault::{Place, TypeFault, earlier};
use crate::nodes::{fault_at, sort_of, unrepresented};
use crate::shift::is_whole;
use crate::sorts::{constant_of, family, is_family, own_type};
use go_base::FaultCode;
use go_constants::Const;
use go_typed::{Sort, TypedNode};
use go_types::{Shape, TypeId, Types};
use go_types_relations::underlying;

fn below_limit(limit: Option<u64>, value: i128) -> bool
    ensures { result ≡ below_limit limit value }
{
    match limit {
        None => true,
        Some(limit) => value < i128::from(limit),
    }
}

fn outside(limit: Option<u64>, constant: Option<&Const>) -> bool
    ensures { result ≡ outside limit (option_map (λ c. c.now) constant.entry) }
{
    match constant {
        Some(Const::Int { value, .. }) => *value < 0 || !below_limit(limit, *value),
        _ => false,
    }
}

/// The fault of a constant index, length or size: `Representable` where `int` doesn't have it, `ConstIndex` where it is negative
/// or not below the limit.
#[tactic(auto, using(crate::proofs::Firsts::least_append))]
pub fn bound(
    types: &Types,
    basics: Basics,
    limit: Option<u64>,
    node: &TypedNode,
) -> Option<TypeFault>
    requires basics { AreBasics types.now basics }
    requires node { Known (length types.now.shapes) node.now }
    ensures { result ≡ least (bound_failing (rights_of types.now) limit (seen types.now node.now)) }
{
    let wide = unrepresented(types, basics.int, node);
    if outside(limit, constant_of(types, sort_of(types, node))) {
        earlier(wide, Some(fault_at(types, node, FaultCode::ConstIndex)))
    } else {
        wide
    }
}

/// The length in bytes of a constant text.
pub fn text_length(constant: Option<&Const>) -> Option<u64>
    ensures { result ≡ text_length (option_map (λ c. c.now) constant.entry) }
{
    match constant {
        Some(Const::Text(bytes)) => Some(bytes.as_slice().len() as u64),
        _ => None,
    }
}

/// The type of the elements of an array or a slice.
pub fn element(types: &Types, sort: &Sort) -> Option<TypeId>
    requires { KnownSort (length types.now.shapes) sort.now }
    ensures known { IfSome result (λ t. t < length types.now.shapes) }
    ensures tree { option_map (type_of types.now.shapes) result ≡ element_of (form_of_value (rights_of types.now) (sort_seen types.now sort.now)) }
{
    match own_type(types, sort) {
        Some(of) => match underlying(types, of) {
            Some(Shape::Array { elem, .. }) => Some(*elem),
            Some(Shape::Slice { elem }) => Some(*elem),
            _ => None,
        },
        None => None,
    }
}

/// The length of an array's type.
pub fn array_length(types: &Types, sort: &Sort) -> Option<u64>
    requires { KnownSort (length types.now.shapes) sort.now }
    ensures { result ≡ array_length (form_of_value (rights_of types.now) (sort_seen types.now sort.now)) }
{
    match own_type(types, sort) {
        Some(of) => match underlying(types, of) {
            Some(Shape::Array { length, .. }) => Some(u64::from(*length)),
            _ => None,
        },
        None => None,
    }
}

/// What an index expression stands for (Go specification, "Index expressions"), or the fault of its rules.
pub fn index(
    types: &Types,
    basics: Basics,
    place: Place,
    operand: &Sort,
    index: &TypedNode,
) -> Result<Sort, TypeFault>
    requires basics { AreBasics types.now basics }
    requires operand { KnownSort (length types.now.shapes) operand.now }
    requires index { Known (length types.now.shapes) index.now }
    ensures exact { let x = sort_seen types.now operand.now in let rights = rights_of types.now in
        Gives (sort_seen types.now) one_fault result (judged (least (index_failing rights place.first place.last x (seen types.now index.now))) (index_sort rights x)) }
    ensures known { IfOk result (KnownSort (length types.now.shapes)) }
{
    if !is_whole(types, sort_of(types, index)) {
        return Err(place.fault(FaultCode::Operands));
    }
    if is_family(Family::Texts, family(types, operand)) {
        let limit = text_length(constant_of(types, operand));
        return match bound(types, basics, limit, index) {
            Some(fault) => Err(fault),
            None => Ok(Sort::Value(basics.byte)),
        };
    }
    let Some(of) = element(types, operand) else {
        return Err(place.fault(FaultCode::Operands));
    };
    match bound(types, basics, array_length(types, operand), index) {
        Some(fault) => Err(fault),
        None => Ok(Sort::Value(of)),
    }
}
