//! Array types whose size can't be told yet (Go specification: Array types, Type definitions).
ghost use Rattle.std.specs.Prelude.{◌≡◌, ◌<◌, ◌++◌, All, OnOk, length, map};
ghost use Rattle.go_types.specs.Tables.{type_of, rights_of};
ghost use Rattle.go_types_relations.specs.Sizes.{scalars_of};
ghost use Rattle.go_typed.specs.Views.{seen, sort_seen, Known, KnownSort};
ghost use Rattle.go_exprs_rules.specs.Faults.{least};
ghost use Rattle.go_exprs_rules.specs.TypeNodes as nodes;
ghost use Rattle.go_stmts_defs.specs.Rules.{first_fault};
ghost use Rattle.go_stmts_parts.specs.Late as arrays;
ghost use Rattle.go_stmts_parts.specs.Late.{waiting, late_arrays, all_too_large, late_seen};

use go_base::{FaultCode, Memory};
use go_exprs_rules::{Place, TypeFault};
use go_exprs_types::sequence::named_type;
use go_typed::{Sort, TypedNode};
use go_types::{Shape, TypeId, Types};
use go_types_relations::scalars;

/// An array type has at most so many scalars.
const MOST_SCALARS: u64 = 1_048_576;

/// An array type whose size can't be told yet, and the tokens that it stands at.
#[derive(Clone, Copy, Debug)]
pub struct LateArray {
    pub place: Place,
    pub of: TypeId,
}

/// Whether it is an array type.
#[tactic(auto, using(crate::proofs::Arrays::shape_type))]
fn is_array(types: &Types, of: TypeId) -> bool
    requires { of < length types.now.shapes }
    ensures { result ≡ arrays.is_array (type_of types.now.shapes of) }
{
    types.count();
    matches!(types.shape(of), Shape::Array { .. })
}

/// Adds what a node stands for, where it is an array type whose size can't be told.
fn push_waiting(
    types: &Types,
    place: Place,
    sort: &Sort,
    found: &mut Vec<LateArray>,
) -> Result<(), Memory>
    requires sort { KnownSort (length types.now.shapes) sort.now }
    requires found { All (λ a. a.of < length types.now.shapes) found.old.items }
    ensures found { OnOk result (map (late_seen types.now) found.new.items ≡ map (late_seen types.now) found.old.items ++ waiting (rights_of types.now) place.first place.last (sort_seen types.now sort.now)) }
    ensures known { OnOk result (All (λ a. a.of < length types.now.shapes) found.new.items) }
{
    let Some(of) = named_type(types, sort) else {
        return Ok(());
    };
    if is_array(types, of) && scalars(types, of).is_none() {
        found.push(LateArray { place, of })?;
    }
    Ok(())
}

/// Adds the array types in a typed tree whose size can't be told, from left to right and the inner ones first.
///
/// # Errors
///
/// Want of memory.
pub fn push_late(types: &Types, node: &TypedNode, found: &mut Vec<LateArray>) -> Result<(), Memory>
    requires node { Known (length types.now.shapes) node.now }
    requires found { All (λ a. a.of < length types.now.shapes) found.old.items }
    ensures found { OnOk result (map (late_seen types.now) found.new.items ≡ map (late_seen types.now) found.old.items ++ late_arrays (rights_of types.now) (seen types.now node.now)) }
    ensures known { OnOk result (All (λ a. a.of < length types.now.shapes) found.new.items) }
{
    for part in &node.parts {
        let Some(part) = part else { continue };
        push_late(types, part, found)?;
    }
    let place = Place {
        first: node.first,
        last: node.last,
    };
    push_waiting(types, place, &node.sort, found)?;
    Ok(())
}

/// Whether an array type is known to have too many scalars.
#[tactic(auto, using(crate::proofs::Arrays::kept_exceeds))]
fn exceeds(types: &Types, of: TypeId) -> bool
    requires { of < length types.now.shapes }
    ensures { result ≡ nodes.exceeds (scalars_of (rights_of types.now) (type_of types.now.shapes of)) }
{
    match scalars(types, of) {
        Some(scalars) => scalars > MOST_SCALARS,
        None => false,
    }
}

/// The fault of the first of some array types that has too many scalars.
pub fn late_fault(types: &Types, found: &[LateArray]) -> Option<TypeFault>
    requires { All (λ a. a.of < length types.now.shapes) found.now }
    ensures { result ≡ least (first_fault (all_too_large (rights_of types.now) (map (late_seen types.now) found.now))) }
{
    for array in found {
        if exceeds(types, array.of) {
            return Some(array.place.fault(FaultCode::Limit));
        }
    }
    None
}
