//! The names in written types.

ghost use Rattle.std.specs.Prelude.{◌≡◌, ◌<◌, ◌≤◌, ◌||◌, ◌++◌, [], ◌∷◌, Bool, length, map, IfOk, OnOk};
ghost use Rattle.std.specs.List.{AllByRecursion, list_any};
ghost use Rattle.go_types.specs.Tables.{HasPartsBelow, tree_of, type_of};
ghost use Rattle.go_print.specs.Names.{object_at};
ghost use Rattle.go_print.specs.Texts.{kind_text};
ghost use Rattle.escape_check.specs.Collecting.{KnowsNames, names_collected, names_of_type, names_of_types};
ghost use Rattle.escape_check.specs.Places.{sources_in};
ghost use Rattle.escape_check.specs.Types.{TypeName as Named, declared_text, type_object};
ghost use Rattle.escape_check.specs.Written.{type_name_view};

use crate::place::name_text;
use go_ints::Kind;
use go_tree::object::Object;
use go_typed::checked::Checked;
use go_typed::origin::Origin;
use go_types::{Field, Shape, TypeId, Types};
use std::alloc::{AllocError, Global};
use std::collections::HashSet;

/// A name in a written type.
#[derive(Clone, Copy)]
pub(crate) struct TypeName<'a> {
    pub name: &'a [u8],
    /// The declared type that it has to mean; none of a predeclared one.
    pub number: Option<u64>,
}

/// Names in written types, and types whose names are all among them.
#[derive(Drop)]
pub(crate) struct Collected<'a> {
    pub names: Vec<TypeName<'a>>,
    pub seen: HashSet<TypeId>,
}

/// The names in some types, each at least once; each type of the table is looked at once.
///
/// # Errors
///
/// Want of memory.
pub(crate) fn names_of_all<'a>(
    alloc: Global,
    checked: &'a Checked,
    types: &[TypeId],
) -> Result<Vec<TypeName<'a>>, AllocError>
    requires { AllByRecursion (λ t. t < length checked.now.types.shapes) types.now }
    ensures { (test : Named → Bool) → IfOk result (λ v. list_any test (map type_name_view v.items) ≡ list_any test (names_of_types checked.entry.now types.now)) }
{
    let mut collected = Collected {
        names: Vec::new(alloc),
        seen: HashSet::new(alloc),
    };
    push_types(checked, checked.types().count(), types, &mut collected)?;
    Ok(collected.names)
}

/// The names in a type, each at least once; each type of the table is looked at once.
///
/// # Errors
///
/// Want of memory.
pub(crate) fn names_in<'a>(
    alloc: Global,
    checked: &'a Checked,
    of: TypeId,
) -> Result<Vec<TypeName<'a>>, AllocError>
    requires { of < length checked.now.types.shapes }
    ensures { (test : Named → Bool) → IfOk result (λ v. list_any test (map type_name_view v.items) ≡ list_any test (names_of_type checked.entry.now of)) }
{
    let mut collected = Collected {
        names: Vec::new(alloc),
        seen: HashSet::new(alloc),
    };
    push_type(checked, of, &mut collected)?;
    Ok(collected.names)
}

/// Puts the names in types, whose numbers are below a bound, behind the others.
#[cycle(names)]
fn push_types<'a>(
    checked: &'a Checked,
    bound: TypeId,
    types: &[TypeId],
    collected: &mut Collected<'a>,
) -> Result<(), AllocError>
    requires bound { bound ≤ length checked.now.types.shapes }
    requires below { AllByRecursion (λ t. t < bound) types.now }
    requires known { KnowsNames checked.now collected.old }
    ensures known { OnOk result (KnowsNames checked.entry.now collected.new) }
    ensures names { (test : Named → Bool) → OnOk result (list_any test (names_collected collected.new)
        ≡ (list_any test (names_collected collected.old) || list_any test (names_of_types checked.entry.now types.now))) }
{
    for of in types {
        push_type(checked, *of, collected)?;
    }
    Ok(())
}

/// Puts the names in the types of fields, whose numbers are below a bound, behind the others.
#[cycle(names)]
fn push_fields<'a>(
    checked: &'a Checked,
    bound: TypeId,
    fields: &[Field],
    collected: &mut Collected<'a>,
) -> Result<(), AllocError>
    requires bound { bound ≤ length checked.now.types.shapes }
    requires below { AllByRecursion (λ f. f.ty < bound) fields.now }
    requires known { KnowsNames checked.now collected.old }
    ensures known { OnOk result (KnowsNames checked.entry.now collected.new) }
    ensures names { (test : Named → Bool) → OnOk result (list_any test (names_collected collected.new)
        ≡ (list_any test (names_collected collected.old) || list_any test (names_of_types checked.entry.now (map (λ f. f.ty) fields.now)))) }
{
    for field in fields {
        push_type(checked, field.ty, collected)?;
    }
    Ok(())
}

/// Puts the names in a type behind the others, unless it was seen.
#[cycle(names)]
fn push_type<'a>(
    checked: &'a Checked,
    of: TypeId,
    collected: &mut Collected<'a>,
) -> Result<(), AllocError>
    requires below { of < length checked.now.types.shapes }
    requires known { KnowsNames checked.now collected.old }
    ensures known { OnOk result (KnowsNames checked.entry.now collected.new) }
    ensures names { (test : Named → Bool) → OnOk result (list_any test (names_collected collected.new)
        ≡ (list_any test (names_collected collected.old) || list_any test (names_of_type checked.entry.now of))) }
{
    if collected.seen.contains(&of) {
        return Ok(());
    }
    push_shape(checked, of, collected)?;
    collected.seen.insert(of)?;
    Ok(())
}

/// Puts the names in a type behind the others.
#[cycle(names)]
#[tactic(auto, using(crate::proofs::Collecting::names_of_struct, crate::proofs::Collecting::fields_below, crate::proofs::Collecting::first_below))]
fn push_shape<'a>(
    checked: &'a Checked,
    of: TypeId,
    collected: &mut Collected<'a>,
) -> Result<(), AllocError>
    requires below { of < length checked.now.types.shapes }
    requires known { KnowsNames checked.now collected.old }
    ensures known { OnOk result (KnowsNames checked.entry.now collected.new) }
    ensures names { (test : Named → Bool) → OnOk result (list_any test (names_collected collected.new)
        ≡ (list_any test (names_collected collected.old) || list_any test (names_of_type checked.entry.now of))) }
{
    match shape(checked.types(), of) {
        Shape::Bool => push_name(b"bool", None, collected),
        Shape::Text => push_name(b"string", None, collected),
        Shape::Int(kind) => push_name(kind_text(*kind), None, collected),
        Shape::Array { elem, .. } => push_type(checked, *elem, collected),
        Shape::Slice { elem } => push_type(checked, *elem, collected),
        Shape::Struct { fields } => push_fields(checked, of, fields.as_slice(), collected),
        Shape::Func { params, results } => {
            push_types(checked, of, params.as_slice(), collected)?;
            push_types(checked, of, results.as_slice(), collected)
        }
        Shape::Named { number } => {
            push_name(declared_text(checked, *number), Some(*number), collected)
        }
    }
}

/// Puts a name behind the others.
fn push_name<'a>(
    name: &'a [u8],
    number: Option<u64>,
    collected: &mut Collected<'a>,
) -> Result<(), AllocError>
    ensures seen { OnOk result (collected.new.seen ≡ collected.old.seen) }
    ensures names { OnOk result (names_collected collected.new ≡ names_collected collected.old ++ record { name = name.now; type = number } ∷ []) }
{
    collected.names.push(TypeName { name, number })?;
    Ok(())
}

/// The shape of a type, whose parts have smaller numbers.
fn shape(types: &Types, of: TypeId) -> &Shape
    requires { of < length types.now.shapes }
    ensures tree { type_of types.now.shapes of ≡ tree_of (type_of types.now.shapes) result.now }
    ensures parts { HasPartsBelow of result.now }
{
    types.count();
    types.shape(of)
}

/// The name of an integer type (Go specification: Numeric types).
fn kind_text(kind: Kind) -> &'static [u8]
    ensures { result.now ≡ kind_text kind }
{
    match kind {
        Kind::Int => b"int",
        Kind::Int8 => b"int8",
        Kind::Int16 => b"int16",
        Kind::Int32 => b"int32",
        Kind::Int64 => b"int64",
        Kind::Uint => b"uint",
        Kind::Uint8 => b"uint8",
        Kind::Uint16 => b"uint16",
        Kind::Uint32 => b"uint32",
        Kind::Uint64 => b"uint64",
    }
}

/// The object of a type that stands there.
fn object_at(origin: Origin) -> Object
    ensures { result ≡ object_at origin }
{
    match origin {
        Origin::Package(number) => Object::Package(number as usize),
        Origin::Local { func, local } => Object::Local {
            function: func as usize,
            number: local as usize,
        },
    }
}

/// The object of a declared type.
pub(crate) fn type_object(checked: &Checked, number: u64) -> Option<Object>
    ensures { result ≡ type_object (sources_in checked.now) number }
{
    checked
        .origins()
        .get(number as usize)
        .map(|origin| object_at(*origin))
}

/// The name of a declared type where it is declared.
fn declared_text(checked: &Checked, number: u64) -> &[u8]
    ensures { result.now ≡ declared_text (sources_in checked.now) number }
{
    let Some(object) = type_object(checked, number) else {
        return &[];
    };
    match checked.uses().declaration(object) {
        Some(declared) => name_text(checked, declared),
        None => &[],
    }
}
