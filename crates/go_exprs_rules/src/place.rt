//! What a place asks of any expression.
ghost use Rattle.std.specs.Prelude.{◌≡◌, ◌<◌, length, map};
ghost use Rattle.go_types.specs.Trees.{row as row_of};
ghost use Rattle.go_types.specs.Tables.{type_of, rights_of};
ghost use Rattle.go_types_relations.specs.Tests.{underlying_of};
ghost use Rattle.go_typed.specs.Views.{sort_seen, KnownSort};
ghost use Rattle.go_exprs_rules.specs.Faults.{least};
ghost use Rattle.go_exprs_rules.specs.Hints.{hint_seen};
ghost use Rattle.go_exprs_rules.specs.Calls.{results_of};
ghost use Rattle.go_exprs_rules.specs.Names.{is_row_empty, is_no_value, is_no_callee, is_no_target, is_no_statement, is_no_type, are_results, not_a_value, one_value, too_many, place_failing};

use crate::fault::{Place, TypeFault};
use crate::hint::Hint;
use go_base::FaultCode;
use go_typed::Sort;
use go_types::{Shape, TypeId, Types};
use go_types_relations::underlying;

fn is_empty(_types: &Types, row: &[TypeId]) -> bool
    ensures { result ≡ is_row_empty (row_of (map (type_of _types.now.shapes) row.now)) }
{
    match row {
        [] => true,
        [_, ..] => false,
    }
}

/// Whether a call of a function of this type has no results.
fn has_no_results(types: &Types, of: TypeId) -> bool
    requires { of < length types.now.shapes }
    ensures { result ≡ is_row_empty (results_of (underlying_of (rights_of types.now) (type_of types.now.shapes of))) }
{
    match underlying(types, of) {
        Some(Shape::Func { results, .. }) => is_empty(types, results.as_slice()),
        _ => true,
    }
}

fn is_no_value(types: &Types, sort: &Sort) -> bool
    requires { KnownSort (length types.now.shapes) sort.now }
    ensures { result ≡ is_no_value (rights_of types.now) (sort_seen types.now sort.now) }
{
    match sort {
        Sort::Type(_) => true,
        Sort::Builtin(_) => true,
        Sort::Blank => true,
        Sort::Results(of) => has_no_results(types, *of),
        _ => false,
    }
}

fn is_no_callee(types: &Types, sort: &Sort) -> bool
    requires { KnownSort (length types.now.shapes) sort.now }
    ensures { result ≡ is_no_callee (rights_of types.now) (sort_seen types.now sort.now) }
{
    match sort {
        Sort::Blank => true,
        Sort::Results(of) => has_no_results(types, *of),
        _ => false,
    }
}

fn is_no_target(types: &Types, sort: &Sort) -> bool
    requires { KnownSort (length types.now.shapes) sort.now }
    ensures { result ≡ is_no_target (rights_of types.now) (sort_seen types.now sort.now) }
{
    match sort {
        Sort::Type(_) => true,
        Sort::Builtin(_) => true,
        Sort::Results(of) => has_no_results(types, *of),
        _ => false,
    }
}

fn is_no_statement(_types: &Types, sort: &Sort) -> bool
    ensures { result ≡ is_no_statement (sort_seen _types.now sort.now) }
{
    matches!(sort, Sort::Type(_) | Sort::Builtin(_) | Sort::Blank)
}

fn is_no_type(_types: &Types, sort: &Sort) -> bool
    ensures { result ≡ is_no_type (sort_seen _types.now sort.now) }
{
    match sort {
        Sort::Type(_) => false,
        Sort::Unknown => false,
        _ => true,
    }
}

fn are_results(_types: &Types, sort: &Sort) -> bool
    ensures { result ≡ are_results (sort_seen _types.now sort.now) }
{
    matches!(sort, Sort::Results(_))
}

fn not_a_value(place: Place, fails: bool) -> Option<TypeFault>
    ensures { result ≡ least (not_a_value fails place.first place.last) }
{
    if fails {
        Some(place.fault(FaultCode::NotAValue))
    } else {
        None
    }
}

/// The fault of a place for one value.
fn one_value(types: &Types, place: Place, fails: bool, sort: &Sort) -> Option<TypeFault>
    ensures { result ≡ least (one_value fails (sort_seen types.now sort.now) place.first place.last) }
{
    if fails {
        return Some(place.fault(FaultCode::NotAValue));
    }
    if are_results(types, sort) {
        Some(place.fault(FaultCode::Count))
    } else {
        None
    }
}

/// The fault of several results where one value is wanted.
fn too_many(types: &Types, place: Place, is_none: bool, sort: &Sort) -> Option<TypeFault>
    ensures { result ≡ least (too_many is_none (sort_seen types.now sort.now) place.first place.last) }
{
    if is_none {
        return None;
    }
    one_value(types, place, false, sort)
}

/// The fault of an expression in its place: `NotAValue` for a type, `_`, a predeclared function or a call without results as a
/// value and for a value as a type, `Count` for several results as one value.
pub fn placed(types: &Types, place: Place, hint: Hint, sort: &Sort) -> Option<TypeFault>
    requires { KnownSort (length types.now.shapes) sort.now }
    ensures { result ≡ least (place_failing (rights_of types.now) (hint_seen types.now hint) place.first place.last (sort_seen types.now sort.now)) }
{
    match hint {
        Hint::Several => not_a_value(place, is_no_value(types, sort)),
        Hint::TypePlace => not_a_value(place, is_no_type(types, sort)),
        Hint::Loose => not_a_value(place, is_no_type(types, sort)),
        Hint::Callee => one_value(types, place, is_no_callee(types, sort), sort),
        Hint::Target => one_value(types, place, is_no_target(types, sort), sort),
        Hint::Statement => not_a_value(place, is_no_statement(types, sort)),
        Hint::Inside => None,
        Hint::OneInside => too_many(types, place, is_no_value(types, sort), sort),
        Hint::LooseInside => None,
        Hint::Declares => None,
        Hint::Free => None,
        Hint::Value => one_value(types, place, is_no_value(types, sort), sort),
        Hint::Element(_) => one_value(types, place, is_no_value(types, sort), sort),
        Hint::Member(_) => one_value(types, place, is_no_value(types, sort), sort),
        Hint::Elided => one_value(types, place, is_no_value(types, sort), sort),
    }
}
