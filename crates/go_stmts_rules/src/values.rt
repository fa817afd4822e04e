//! What the values of a statement take, one after the other.
ghost use Rattle.std.specs.Prelude.{◌≡◌, ◌==◌, ◌++◌, ◌∷◌, ◌<◌, [], All, OnOk, length, map, drop, replicate};
ghost use Rattle.std.specs.List.{AllByRecursion};
ghost use Rattle.std.specs.Option.{option_map};
ghost use Rattle.go_types.specs.Tables.{type_of};
ghost use Rattle.go_exprs_rules.specs.Settling.{as_type};
ghost use Rattle.go_exprs_rules.specs.Takes.{take_seen, KnownTake};
ghost use Rattle.go_stmts_defs.specs.Assigning.{takes, type_or_default, values_take};
ghost use Rattle.go_stmts_defs.specs.Rules.{rest, type_or_rest, returned};
ghost use Rattle.go_exprs_calls.specs.Shown.{shown};
ghost use Rattle.go_stmts_rules.specs.Firsts.{first_taking};
ghost use Rattle.go_stmts_rules.specs.Seen.{taking_seen, KnownTaking, wanted_seen, KnownWanted, types_seen};

use crate::taking::Taking;
use go_exprs_rules::Take;
use go_typed::TypedNode;
use go_types::{TypeId, Types};
use std::alloc::AllocError;

/// Puts what one more part takes behind the others.
pub fn push(types: &Types, taking: Taking, takings: &mut Vec<Taking>) -> Result<(), AllocError>
    requires taking { KnownTaking (length types.now.shapes) taking }
    requires takings { All (KnownTaking (length types.now.shapes)) takings.old.items }
    ensures tree { OnOk result (map (taking_seen types.now) takings.new.items ≡ map (taking_seen types.now) takings.old.items ++ taking_seen types.now taking ∷ []) }
    ensures known { OnOk result (All (KnownTaking (length types.now.shapes)) takings.new.items) }
{
    let _types = types;
    takings.push(taking)?;
    Ok(())
}

/// So many parts take the same.
pub fn push_same(
    types: &Types,
    take: Take,
    count: usize,
    takings: &mut Vec<Taking>,
) -> Result<(), AllocError>
    requires take { KnownTake (length types.now.shapes) take }
    requires takings { All (KnownTaking (length types.now.shapes)) takings.old.items }
    ensures tree { OnOk result (map (taking_seen types.now) takings.new.items ≡ map (taking_seen types.now) takings.old.items ++ replicate count (takes (take_seen types.now take))) }
    ensures known { OnOk result (All (KnownTaking (length types.now.shapes)) takings.new.items) }
{
    let mut left = count;
    while left > 0 {
        push(types, Taking::Takes(take), takings)?;
        left -= 1;
    }
    Ok(())
}

/// So many parts take nothing as there are nodes.
pub fn push_rests(
    types: &Types,
    nodes: &[&TypedNode],
    takings: &mut Vec<Taking>,
) -> Result<(), AllocError>
    requires { All (KnownTaking (length types.now.shapes)) takings.old.items }
    ensures tree { OnOk result (map (taking_seen types.now) takings.new.items ≡ map (taking_seen types.now) takings.old.items ++ rest (length (shown types.now nodes.now))) }
    ensures known { OnOk result (All (KnownTaking (length types.now.shapes)) takings.new.items) }
{
    for _ in nodes {
        push(types, Taking::Takes(Take::Stay), takings)?;
    }
    Ok(())
}

/// Each value of a constant takes the type, where there is one.
pub fn push_each(
    types: &Types,
    of: Option<TypeId>,
    values: &[&TypedNode],
    takings: &mut Vec<Taking>,
) -> Result<(), AllocError>
    requires of { KnownWanted (length types.now.shapes) of }
    requires takings { All (KnownTaking (length types.now.shapes)) takings.old.items }
    ensures tree { OnOk result (map (taking_seen types.now) takings.new.items ≡ map (taking_seen types.now) takings.old.items ++ map (λ x. type_or_rest (option_map (type_of types.now.shapes) of)) (shown types.now values.now)) }
    ensures known { OnOk result (All (KnownTaking (length types.now.shapes)) takings.new.items) }
{
    for _ in values {
        push(types, Taking::Takes(type_or_rest(types, of)), takings)?;
    }
    Ok(())
}

/// What a value takes of its variable: its type, or the default type.
pub fn type_or_default(types: &Types, wanted: Option<TypeId>) -> Take
    requires { KnownWanted (length types.now.shapes) wanted }
    ensures tree { takes (take_seen types.now result) ≡ type_or_default (option_map (type_of types.now.shapes) wanted) }
    ensures known { KnownTake (length types.now.shapes) result }
{
    let _types = types;
    match wanted {
        Some(of) => Take::As(of),
        None => Take::Default,
    }
}

/// What a value of a constant takes: the type, where there is one.
fn type_or_rest(types: &Types, of: Option<TypeId>) -> Take
    requires { KnownWanted (length types.now.shapes) of }
    ensures tree { takes (take_seen types.now result) ≡ type_or_rest (option_map (type_of types.now.shapes) of) }
    ensures known { KnownTake (length types.now.shapes) result }
{
    let _types = types;
    match of {
        Some(of) => Take::As(of),
        None => Take::Stay,
    }
}

/// What the value of this number takes: the type of its variable, if there is one.
fn value_take(types: &Types, wanted: &[Option<TypeId>], number: usize) -> Take
    requires { AllByRecursion (KnownWanted (length types.now.shapes)) wanted.now }
    ensures tree { takes (take_seen types.now result) ≡ first_taking (wanted_seen types.now (drop number wanted.now)) }
    ensures known { KnownTake (length types.now.shapes) result }
{
    if number < wanted.len() {
        type_or_default(types, wanted[number])
    } else {
        Take::Default
    }
}

/// Each value takes the type of its variable, those behind the last variable their default types.
pub fn push_values(
    types: &Types,
    wanted: &[Option<TypeId>],
    values: &[&TypedNode],
    takings: &mut Vec<Taking>,
) -> Result<(), AllocError>
    requires wanted { AllByRecursion (KnownWanted (length types.now.shapes)) wanted.now }
    requires takings { All (KnownTaking (length types.now.shapes)) takings.old.items }
    ensures tree { OnOk result (map (taking_seen types.now) takings.new.items ≡ map (taking_seen types.now) takings.old.items ++ values_take (wanted_seen types.now wanted.now) (shown types.now values.now)) }
    ensures known { OnOk result (All (KnownTaking (length types.now.shapes)) takings.new.items) }
{
    for number in 0..values.len() {
        push(
            types,
            Taking::Takes(value_take(types, wanted, number)),
            takings,
        )?;
    }
    Ok(())
}

/// Each value takes the type of its result.
fn push_results(
    types: &Types,
    results: &[TypeId],
    takings: &mut Vec<Taking>,
) -> Result<(), AllocError>
    requires results { AllByRecursion (λ t. t < length types.now.shapes) results.now }
    requires takings { All (KnownTaking (length types.now.shapes)) takings.old.items }
    ensures tree { OnOk result (map (taking_seen types.now) takings.new.items ≡ map (taking_seen types.now) takings.old.items ++ map (λ t. takes (as_type t)) (types_seen types.now results.now)) }
    ensures known { OnOk result (All (KnownTaking (length types.now.shapes)) takings.new.items) }
{
    for of in results {
        push(types, Taking::Takes(Take::As(*of)), takings)?;
    }
    Ok(())
}

/// Whether there are as many values as results.
fn are_as_many(types: &Types, results: &[TypeId], values: &[&TypedNode]) -> bool
    ensures { result ≡ (length (types_seen types.now results.now) == length (shown types.now values.now)) }
{
    let _types = types;
    results.len() == values.len()
}

/// What returned values take: the types of the results, if there are as many.
pub fn push_returned(
    types: &Types,
    results: &[TypeId],
    values: &[&TypedNode],
    takings: &mut Vec<Taking>,
) -> Result<(), AllocError>
    requires results { AllByRecursion (λ t. t < length types.now.shapes) results.now }
    requires takings { All (KnownTaking (length types.now.shapes)) takings.old.items }
    ensures tree { OnOk result (map (taking_seen types.now) takings.new.items ≡ map (taking_seen types.now) takings.old.items ++ returned (types_seen types.now results.now) (shown types.now values.now)) }
    ensures known { OnOk result (All (KnownTaking (length types.now.shapes)) takings.new.items) }
{
    if !are_as_many(types, results, values) {
        return Ok(());
    }
    push_results(types, results, takings)
}
