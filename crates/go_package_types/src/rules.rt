//! The rules of a specification itself.
ghost use Rattle.std.specs.Prelude.{◌≡◌, ◌==◌, IfOk, length};
ghost use Rattle.std.specs.Option.{option_map};
ghost use Rattle.go_types.specs.Tables.{type_of, rights_of};
ghost use Rattle.go_typed.specs.Trees.{sort_of};
ghost use Rattle.go_typed.specs.Views.{seen, sort_seen, Known};
ghost use Rattle.go_exprs_calls.specs.Shown.{shown, AllShownKnown};
ghost use Rattle.go_exprs_rules.specs.Faults.{least};
ghost use Rattle.go_exprs_rules.specs.Seen.{AreBasics};
ghost use Rattle.go_exprs_rules.specs.Sorts.{is_unknown};
ghost use Rattle.go_stmts_defs.specs.Assigning.{constants_failing};
ghost use Rattle.go_stmts_rules.specs.Seen.{KnownWanted};
ghost use Rattle.go_stmts_defs.specs.Rules.{variables_failing};
ghost use Rattle.go_package_defs.specs.Verdicts.{counted, known_parts, constants_failing_in, specification_failing};
ghost use Rattle.go_declarations.specs.Views.{specification_view};
ghost use Rattle.go_package_types.specs.Whole.{known_failing};

use go_base::{FaultCode, Memory};
use go_declarations::Specification;
use go_exprs_rules::fault::earlier;
use go_exprs_rules::nodes::sort_of;
use go_exprs_rules::{Basics, Place, TypeFault};
use go_stmts_rules::constants::{constants_fault, variables_fault};
use go_tree::context::Entity;
use go_typed::{Sort, TypedNode};
use go_types::{TypeId, Types};
use std::alloc::Global;

/// Where a specification stands.
fn place_of(specification: &Specification<'_>) -> Place
    ensures { let d = specification_view specification.now in result ≡ record { first = d.first; last = d.last } }
{
    Place {
        first: specification.first,
        last: specification.last,
    }
}

/// Whether a value has a fault, or names what isn't known.
fn is_unknown(types: &Types, value: &TypedNode) -> bool
    requires { Known (length types.now.shapes) value.now }
    ensures { result ≡ is_unknown (sort_of (seen types.now value.now)) }
{
    is_nothing_known(types, sort_of(types, value))
}

fn is_nothing_known(_types: &Types, sort: &Sort) -> bool
    ensures { result ≡ is_unknown (sort_seen _types.now sort.now) }
{
    matches!(sort, Sort::Unknown)
}

/// The fault of one value of a constant, if it is known.
#[tactic(auto, using(crate::proofs::Constants::one_constant))]
fn constant_fault(types: &Types, of: Option<TypeId>, value: &TypedNode) -> Option<TypeFault>
    requires of { KnownWanted (length types.now.shapes) of }
    requires value { Known (length types.now.shapes) value.now }
    ensures { result ≡ least (known_failing (rights_of types.now) (option_map (type_of types.now.shapes) of) (seen types.now value.now)) }
{
    if is_unknown(types, value) {
        return None;
    }
    constants_fault(types, Place { first: 0, last: 0 }, 1, of, &[value])
}

/// The least fault of the values of constants, of those that are known.
fn each_constant(types: &Types, of: Option<TypeId>, values: &[&TypedNode]) -> Option<TypeFault>
    requires of { KnownWanted (length types.now.shapes) of }
    requires values { AllShownKnown (length types.now.shapes) values.now }
    ensures { result ≡ least (constants_failing (rights_of types.now) (option_map (type_of types.now.shapes) of) (known_parts (shown types.now values.now))) }
{
    let mut first = None;
    for value in values {
        first = earlier(first, constant_fault(types, of, value));
    }
    first
}

/// Whether there are so many values.
fn is_count(types: &Types, count: usize, values: &[&TypedNode]) -> bool
    ensures { result ≡ (count == length (shown types.now values.now)) }
{
    let _types = types;
    count == values.len()
}

/// The fault of a number of values that isn't that of the names.
fn count_fault(
    types: &Types,
    place: Place,
    count: usize,
    values: &[&TypedNode],
) -> Option<TypeFault>
    ensures { result ≡ least (counted place.first place.last count (length (shown types.now values.now))) }
{
    if is_count(types, count, values) {
        None
    } else {
        Some(place.fault(FaultCode::Count))
    }
}

/// The fault of a specification of constants itself: of the number of its values, and of those that are known.
#[tactic(auto, using(go_exprs_rules::proofs::Firsts::least_append))]
fn constants_rule(
    types: &Types,
    specification: &Specification<'_>,
    of: Option<TypeId>,
    values: &[&TypedNode],
) -> Option<TypeFault>
    requires of { KnownWanted (length types.now.shapes) of }
    requires values { AllShownKnown (length types.now.shapes) values.now }
    ensures { result ≡ least (constants_failing_in (rights_of types.now) (specification_view specification.now) (option_map (type_of types.now.shapes) of) (shown types.now values.now)) }
{
    let place = place_of(specification);
    earlier(
        count_fault(types, place, specification.names.len(), values),
        each_constant(types, of, values),
    )
}

/// The fault of a specification of variables itself: of the number of its values, and of their assignment.
fn variables_rule(
    alloc: Global,
    types: &Types,
    basics: Basics,
    specification: &Specification<'_>,
    of: Option<TypeId>,
    values: &[&TypedNode],
) -> Result<Option<TypeFault>, Memory>
    requires basics { AreBasics types.now basics }
    requires of { KnownWanted (length types.now.shapes) of }
    requires values { AllShownKnown (length types.now.shapes) values.now }
    ensures { let d = specification_view specification.now in
        IfOk result (λ o. o ≡ least (variables_failing (rights_of types.now) d.first d.last (length d.names) (option_map (type_of types.now.shapes) of) (shown types.now values.now))) }
{
    let Ok(count) = u32::try_from(specification.names.len()) else {
        return Err(Memory);
    };
    variables_fault(
        alloc,
        types,
        basics,
        place_of(specification),
        count,
        of,
        values,
    )
}

/// The least of the rules of a specification itself that fail, by its type and its values (Go specification, "Constant declarations",
/// "Variable declarations").
///
/// # Errors
///
/// Want of memory.
pub fn own_rule(
    alloc: Global,
    types: &Types,
    basics: Basics,
    specification: &Specification<'_>,
    of: Option<TypeId>,
    values: &[&TypedNode],
) -> Result<Option<TypeFault>, Memory>
    requires basics { AreBasics types.now basics }
    requires of { KnownWanted (length types.now.shapes) of }
    requires values { AllShownKnown (length types.now.shapes) values.now }
    ensures { let d = specification_view specification.now in
        IfOk result (λ o. o ≡ least (specification_failing d.entity (rights_of types.now) d (option_map (type_of types.now.shapes) of) (shown types.now values.now))) }
{
    match specification.entity {
        Entity::Constant => Ok(constants_rule(types, specification, of, values)),
        Entity::Variable => variables_rule(alloc, types, basics, specification, of, values),
        _ => Ok(None),
    }
}
