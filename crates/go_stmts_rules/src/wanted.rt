//! The types of values, and of variables to which they are given.
ghost use Rattle.std.specs.Prelude.{◌≡◌, ◌++◌, ◌∷◌, ◌<◌, [], Some, IfOk, IfSome, OnOk, length, map, replicate};
ghost use Rattle.std.specs.List.{AllByRecursion};
ghost use Rattle.std.specs.Option.{option_map};
ghost use Rattle.go_types.specs.Tables.{type_of};
ghost use Rattle.go_stmts_defs.specs.Frames.{declared_type};
ghost use Rattle.go_stmts_defs.specs.Rules.{target_type, known_type};
ghost use Rattle.go_typed.specs.Views.{seen, sort_seen, Known, KnownSort};
ghost use Rattle.go_exprs_rules.specs.Seen.{AreBasics};
ghost use Rattle.go_exprs_rules.specs.Sorts.{value_type};
ghost use Rattle.go_typed.specs.Scopes.{KnownLocals};
ghost use Rattle.go_exprs_calls.specs.Shown.{shown, AllShownKnown};
ghost use Rattle.go_stmts_rules.specs.Seen.{wanted_seen, KnownWanted, types_seen, locals_in};

use go_base::Memory;
use go_exprs_rules::Basics;
use go_exprs_rules::basics::default_type;
use go_exprs_rules::nodes::sort_of;
use go_exprs_rules::sorts::{const_kind, own_type, untyped_kind};
use go_stmts_parts::nodes::form_of;
use go_typed::{Form, Locals, Sort, TypedNode};
use go_types::{TypeId, Types};
use std::alloc::{AllocError, Global};

/// Puts one more type, or none, behind the others.
pub fn push_wanted(
    types: &Types,
    one: Option<TypeId>,
    wanted: &mut Vec<Option<TypeId>>,
) -> Result<(), AllocError>
    requires one { KnownWanted (length types.now.shapes) one }
    requires wanted { AllByRecursion (KnownWanted (length types.now.shapes)) wanted.old.items }
    ensures tree { OnOk result (wanted_seen types.now wanted.new.items ≡ wanted_seen types.now wanted.old.items ++ option_map (type_of types.now.shapes) one ∷ []) }
    ensures known { OnOk result (AllByRecursion (KnownWanted (length types.now.shapes)) wanted.new.items) }
{
    let _types = types;
    wanted.push(one)?;
    Ok(())
}

/// The type of a value, or its default type.
pub fn value_type(types: &Types, basics: Basics, sort: &Sort) -> Option<TypeId>
    requires basics { AreBasics types.now basics }
    requires sort { KnownSort (length types.now.shapes) sort.now }
    ensures tree { option_map (type_of types.now.shapes) result ≡ value_type (sort_seen types.now sort.now) }
    ensures known { KnownWanted (length types.now.shapes) result }
{
    match sort {
        Sort::Value(of) => Some(*of),
        Sort::Constant(of, _) => Some(of.id()),
        Sort::Open(untyped) => Some(default_type(types, basics, untyped_kind(*untyped))),
        Sort::OpenConstant(constant) => Some(default_type(
            types,
            basics,
            const_kind(constant.get()),
        )),
        _ => None,
    }
}

/// The type of what is assigned to, if it has one.
pub fn target_type(types: &Types, target: &TypedNode) -> Option<TypeId>
    requires { Known (length types.now.shapes) target.now }
    ensures tree { option_map (type_of types.now.shapes) result ≡ target_type (seen types.now target.now) }
    ensures known { KnownWanted (length types.now.shapes) result }
{
    own_type(types, sort_of(types, target))
}

/// The types of targets.
///
/// # Errors
///
/// Want of memory.
pub fn target_types(
    alloc: Global,
    types: &Types,
    targets: &[&TypedNode],
) -> Result<Vec<Option<TypeId>>, Memory>
    requires { AllShownKnown (length types.now.shapes) targets.now }
    ensures tree { IfOk result (λ ws. wanted_seen types.now ws.items ≡ map target_type (shown types.now targets.now)) }
    ensures known { IfOk result (λ ws. AllByRecursion (KnownWanted (length types.now.shapes)) ws.items) }
{
    let mut wanted = Vec::new(alloc);
    for target in targets {
        push_wanted(types, target_type(types, target), &mut wanted)?;
    }
    Ok(wanted)
}

/// The type of a local that is declared already.
pub fn declared_type(types: &Types, locals: &Locals, number: u32) -> Option<TypeId>
    requires { KnownLocals (length types.now.shapes) locals.now }
    ensures tree { option_map (type_of types.now.shapes) result ≡ declared_type (locals_in types.now locals.now) number }
    ensures known { KnownWanted (length types.now.shapes) result }
{
    match locals.sort(number as usize) {
        Some(sort) => own_type(types, sort),
        None => None,
    }
}

/// The type that a name of `:=` has already.
fn known_type(types: &Types, locals: &Locals, name: &TypedNode) -> Option<TypeId>
    requires { KnownLocals (length types.now.shapes) locals.now }
    ensures tree { option_map (type_of types.now.shapes) result ≡ known_type (locals_in types.now locals.now) (seen types.now name.now) }
    ensures known { KnownWanted (length types.now.shapes) result }
{
    match form_of(types, name) {
        Form::Local(number) => declared_type(types, locals, number),
        _ => None,
    }
}

/// The types that names of `:=` have already.
///
/// # Errors
///
/// Want of memory.
pub fn known_types(
    alloc: Global,
    types: &Types,
    locals: &Locals,
    names: &[&TypedNode],
) -> Result<Vec<Option<TypeId>>, Memory>
    requires { KnownLocals (length types.now.shapes) locals.now }
    ensures tree { IfOk result (λ ws. wanted_seen types.now ws.items ≡ map (known_type (locals_in types.now locals.now)) (shown types.now names.now)) }
    ensures known { IfOk result (λ ws. AllByRecursion (KnownWanted (length types.now.shapes)) ws.items) }
{
    let mut wanted = Vec::new(alloc);
    for name in names {
        push_wanted(types, known_type(types, locals, name), &mut wanted)?;
    }
    Ok(wanted)
}

/// One type, or none, for so many names.
///
/// # Errors
///
/// Want of memory.
pub fn same_types(
    alloc: Global,
    types: &Types,
    count: u32,
    of: Option<TypeId>,
) -> Result<Vec<Option<TypeId>>, Memory>
    requires { KnownWanted (length types.now.shapes) of }
    ensures tree { IfOk result (λ ws. wanted_seen types.now ws.items ≡ replicate count (option_map (type_of types.now.shapes) of)) }
    ensures known { IfOk result (λ ws. AllByRecursion (KnownWanted (length types.now.shapes)) ws.items) }
{
    let mut wanted = Vec::new(alloc);
    let mut left = count;
    while left > 0 {
        push_wanted(types, of, &mut wanted)?;
        left -= 1;
    }
    Ok(wanted)
}

/// The types of results.
///
/// # Errors
///
/// Want of memory.
pub fn result_types(
    alloc: Global,
    types: &Types,
    results: &[TypeId],
) -> Result<Vec<Option<TypeId>>, Memory>
    requires { AllByRecursion (λ t. t < length types.now.shapes) results.now }
    ensures tree { IfOk result (λ ws. wanted_seen types.now ws.items ≡ map (λ t. Some t) (types_seen types.now results.now)) }
    ensures known { IfOk result (λ ws. AllByRecursion (KnownWanted (length types.now.shapes)) ws.items) }
{
    let mut wanted = Vec::new(alloc);
    for of in results {
        push_wanted(types, Some(*of), &mut wanted)?;
    }
    Ok(wanted)
}
