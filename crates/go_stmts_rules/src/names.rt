//! What the names of a declaration stand for.
ghost use Rattle.std.specs.Prelude.{◌≡◌, ◌++◌, ◌∷◌, ◌<◌, [], All, IfOk, OnOk, length, map, drop, replicate};
ghost use Rattle.std.specs.List.{AllByRecursion};
ghost use Rattle.std.specs.Option.{option_map};
ghost use Rattle.go_types.specs.Tables.{type_of, rights_of};
ghost use Rattle.go_exprs_rules.specs.Seen.{AreBasics};
ghost use Rattle.go_exprs_rules.specs.Sorts.{value_type};
ghost use Rattle.go_typed.specs.Trees.{sort_of, Unknown};
ghost use Rattle.go_typed.specs.Views.{seen, sort_seen, Known, KnownSort};
ghost use Rattle.go_stmts_defs.specs.Assigning.{stands, first_known, variable, value_types_by, whole_results, names_take, declared_names, constant_in, constants_take};
ghost use Rattle.go_stmts_defs.specs.Rules.{elements_stand, range_types};
ghost use Rattle.go_exprs_calls.specs.Shown.{shown, AllShownKnown};
ghost use Rattle.go_stmts_rules.specs.Firsts.{first_constant};
ghost use Rattle.go_stmts_rules.specs.Seen.{taking_seen, KnownTaking, wanted_seen, KnownWanted};

use crate::assign::whole_results;
use crate::ranges::range_types;
use crate::taking::Taking;
use crate::values::push;
use crate::wanted::{push_wanted, result_types, value_type};
use go_base::Memory;
use go_exprs_rules::Basics;
use go_exprs_rules::nodes::sort_of;
use go_typed::{ConstantType, Sort, TypedNode};
use go_types::{TypeId, Types};
use std::alloc::{AllocError, Global};

/// The types of values, each by itself.
fn own_types(
    alloc: Global,
    types: &Types,
    basics: Basics,
    values: &[&TypedNode],
) -> Result<Vec<Option<TypeId>>, Memory>
    requires basics { AreBasics types.now basics }
    requires values { AllShownKnown (length types.now.shapes) values.now }
    ensures tree { IfOk result (λ us. wanted_seen types.now us.items ≡ map (λ x. value_type (sort_of x)) (shown types.now values.now)) }
    ensures known { IfOk result (λ us. AllByRecursion (KnownWanted (length types.now.shapes)) us.items) }
{
    let mut own = Vec::new(alloc);
    for value in values {
        push_wanted(
            types,
            value_type(types, basics, sort_of(types, value)),
            &mut own,
        )?;
    }
    Ok(own)
}

/// The types of values: of the results of a call, or of each value.
fn value_types(
    alloc: Global,
    types: &Types,
    basics: Basics,
    values: &[&TypedNode],
) -> Result<Vec<Option<TypeId>>, Memory>
    requires basics { AreBasics types.now basics }
    requires values { AllShownKnown (length types.now.shapes) values.now }
    ensures tree { let xs = shown types.now values.now in
        IfOk result (λ us. wanted_seen types.now us.items ≡ value_types_by xs (whole_results (rights_of types.now) xs)) }
    ensures known { IfOk result (λ us. AllByRecursion (KnownWanted (length types.now.shapes)) us.items) }
{
    match whole_results(types, values) {
        Some(results) => result_types(alloc, types, results),
        None => own_types(alloc, types, basics, values),
    }
}

/// A variable of the type, if it has one.
fn variable(types: &Types, of: Option<TypeId>) -> Sort
    requires { KnownWanted (length types.now.shapes) of }
    ensures tree { sort_seen types.now result ≡ variable (option_map (type_of types.now.shapes) of) }
    ensures known { KnownSort (length types.now.shapes) result }
{
    let _types = types;
    match of {
        Some(of) => Sort::Value(of),
        None => Sort::Unknown,
    }
}

/// The type that a name has already, or else that of its value.
fn first_known(types: &Types, one: Option<TypeId>, other: Option<TypeId>) -> Option<TypeId>
    requires one { KnownWanted (length types.now.shapes) one }
    requires other { KnownWanted (length types.now.shapes) other }
    ensures tree { option_map (type_of types.now.shapes) result ≡ first_known (option_map (type_of types.now.shapes) one) (option_map (type_of types.now.shapes) other) }
    ensures known { KnownWanted (length types.now.shapes) result }
{
    let _types = types;
    match one {
        Some(of) => Some(of),
        None => other,
    }
}

/// Names with these types, where they have one, and else with those of the values.
fn push_typed(
    types: &Types,
    wanted: &[Option<TypeId>],
    given: &[Option<TypeId>],
    takings: &mut Vec<Taking>,
) -> Result<(), AllocError>
    requires wanted { AllByRecursion (KnownWanted (length types.now.shapes)) wanted.now }
    requires given { AllByRecursion (KnownWanted (length types.now.shapes)) given.now }
    requires takings { All (KnownTaking (length types.now.shapes)) takings.old.items }
    ensures tree { OnOk result (map (taking_seen types.now) takings.new.items ≡ map (taking_seen types.now) takings.old.items ++ names_take (wanted_seen types.now wanted.now) (wanted_seen types.now given.now)) }
    ensures known { OnOk result (All (KnownTaking (length types.now.shapes)) takings.new.items) }
{
    for number in 0..wanted.len() {
        let of = if number < given.len() {
            first_known(types, wanted[number], given[number])
        } else {
            wanted[number]
        };
        push(types, Taking::Stands(variable(types, of)), takings)?;
    }
    Ok(())
}

/// What the names of a declaration of variables stand for.
///
/// # Errors
///
/// Want of memory.
pub fn push_names(
    alloc: Global,
    types: &Types,
    basics: Basics,
    wanted: &[Option<TypeId>],
    values: &[&TypedNode],
    takings: &mut Vec<Taking>,
) -> Result<(), Memory>
    requires basics { AreBasics types.now basics }
    requires wanted { AllByRecursion (KnownWanted (length types.now.shapes)) wanted.now }
    requires values { AllShownKnown (length types.now.shapes) values.now }
    requires takings { All (KnownTaking (length types.now.shapes)) takings.old.items }
    ensures tree { OnOk result (map (taking_seen types.now) takings.new.items ≡ map (taking_seen types.now) takings.old.items ++ declared_names (rights_of types.now) (wanted_seen types.now wanted.now) (shown types.now values.now)) }
    ensures known { OnOk result (All (KnownTaking (length types.now.shapes)) takings.new.items) }
{
    let given = value_types(alloc, types, basics, values)?;
    push_typed(types, wanted, &given, takings)?;
    Ok(())
}

/// A constant of this value and of the type, where there is one.
fn constant_in(types: &Types, of: Option<TypeId>, sort: &Sort) -> Result<Sort, Memory>
    requires of { KnownWanted (length types.now.shapes) of }
    requires sort { KnownSort (length types.now.shapes) sort.now }
    ensures tree { IfOk result (λ s. sort_seen types.now s ≡ constant_in (option_map (type_of types.now.shapes) of) (sort_seen types.now sort.now)) }
    ensures known { IfOk result (KnownSort (length types.now.shapes)) }
{
    let _types = types;
    match (of, sort.shared()?) {
        (None, Sort::Constant(own, constant)) => Ok(Sort::Constant(own, constant)),
        (None, Sort::OpenConstant(constant)) => Ok(Sort::OpenConstant(constant)),
        (Some(of), Sort::Constant(_, constant)) => {
            Ok(Sort::Constant(ConstantType::of(of)?, constant))
        }
        (Some(of), Sort::OpenConstant(constant)) => {
            Ok(Sort::Constant(ConstantType::of(of)?, constant))
        }
        _ => Ok(Sort::Unknown),
    }
}

/// What the name of this number of a declaration of constants stands for: its value, where there is one.
fn constant_at(
    types: &Types,
    of: Option<TypeId>,
    values: &[&TypedNode],
    number: usize,
) -> Result<Sort, Memory>
    requires of { KnownWanted (length types.now.shapes) of }
    requires values { AllShownKnown (length types.now.shapes) values.now }
    ensures tree { IfOk result (λ s. sort_seen types.now s ≡ first_constant (option_map (type_of types.now.shapes) of) (shown types.now (drop number values.now))) }
    ensures known { IfOk result (KnownSort (length types.now.shapes)) }
{
    if number < values.len() {
        constant_in(types, of, sort_of(types, values[number]))
    } else {
        Ok(Sort::Unknown)
    }
}

/// What so many names of a declaration of constants stand for.
///
/// # Errors
///
/// Want of memory.
pub fn push_constants(
    types: &Types,
    of: Option<TypeId>,
    count: usize,
    values: &[&TypedNode],
    takings: &mut Vec<Taking>,
) -> Result<(), Memory>
    requires of { KnownWanted (length types.now.shapes) of }
    requires values { AllShownKnown (length types.now.shapes) values.now }
    requires takings { All (KnownTaking (length types.now.shapes)) takings.old.items }
    ensures tree { OnOk result (map (taking_seen types.now) takings.new.items ≡ map (taking_seen types.now) takings.old.items
        ++ constants_take (option_map (type_of types.now.shapes) of) (replicate count (option_map (type_of types.now.shapes) of)) (shown types.now values.now)) }
    ensures known { OnOk result (All (KnownTaking (length types.now.shapes)) takings.new.items) }
{
    for number in 0..count {
        let sort = constant_at(types, of, values, number)?;
        push(types, Taking::Stands(sort), takings)?;
    }
    Ok(())
}

/// Names of a range clause over something that has none stand for nothing known.
fn push_unknown(types: &Types, count: usize, takings: &mut Vec<Taking>) -> Result<(), AllocError>
    requires { All (KnownTaking (length types.now.shapes)) takings.old.items }
    ensures tree { OnOk result (map (taking_seen types.now) takings.new.items ≡ map (taking_seen types.now) takings.old.items ++ replicate count (stands Unknown)) }
    ensures known { OnOk result (All (KnownTaking (length types.now.shapes)) takings.new.items) }
{
    let mut left = count;
    while left > 0 {
        push(types, Taking::Stands(Sort::Unknown), takings)?;
        left -= 1;
    }
    Ok(())
}

/// What so many names of a range clause over a value stand for.
pub fn push_elements(
    types: &Types,
    basics: Basics,
    count: usize,
    operand: &TypedNode,
    takings: &mut Vec<Taking>,
) -> Result<(), AllocError>
    requires basics { AreBasics types.now basics }
    requires operand { Known (length types.now.shapes) operand.now }
    requires takings { All (KnownTaking (length types.now.shapes)) takings.old.items }
    ensures tree { OnOk result (map (taking_seen types.now) takings.new.items ≡ map (taking_seen types.now) takings.old.items ++ elements_stand count (range_types (rights_of types.now) (seen types.now operand.now))) }
    ensures known { OnOk result (All (KnownTaking (length types.now.shapes)) takings.new.items) }
{
    let Some(pair) = range_types(types, basics, operand) else {
        return push_unknown(types, count, takings);
    };
    if count > 0 {
        push(types, Taking::Stands(Sort::Value(pair.first)), takings)?;
    }
    if count > 1 {
        push(types, Taking::Stands(Sort::Value(pair.second)), takings)?;
    }
    Ok(())
}
