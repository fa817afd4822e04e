//! The texts of types.
ghost use Rattle.std.specs.Prelude.{◌≡◌, ◌++◌, ◌<◌, ◌≤◌, map, codes, IfOk, OnOk, length};
ghost use Rattle.std.specs.Fmt.{decimal};
ghost use Rattle.std.specs.List.{AllByRecursion};
ghost use Rattle.go_types.specs.Tables.{HasPartsBelow, tree_of, type_of};
ghost use Rattle.go_print.specs.Texts.{kind_text, type_text, marked, listed, fields_text, results_text, function_text};
ghost use Rattle.go_print.specs.Names.{declared_name};
ghost use Rattle.go_print.specs.Printed.{printed, printed_field};

use crate::names::declared_name;
use go_base::{Bytes, Memory};
use go_ints::Kind;
use go_typed::Checked;
use go_types::{Field, Shape, TypeId, Types};
use std::alloc::{AllocError, Global};

fn kind_text(kind: Kind) -> &'static [u8]
    ensures { result.now ≡ kind_text kind }
{
    match kind {
        Kind::Int => b"int",
        Kind::Int8 => b"int8",
        Kind::Int16 => b"int16",
        Kind::Int32 => b"int32",
        Kind::Int64 => b"int64",
        Kind::Uint => b"uint",
        Kind::Uint8 => b"uint8",
        Kind::Uint16 => b"uint16",
        Kind::Uint32 => b"uint32",
        Kind::Uint64 => b"uint64",
    }
}

/// The shape of a type, whose parts have smaller numbers.
fn shape(types: &Types, of: TypeId) -> &Shape
    requires { of < length types.now.shapes }
    ensures tree { type_of types.now.shapes of ≡ tree_of (type_of types.now.shapes) result.now }
    ensures parts { HasPartsBelow of result.now }
{
    types.count();
    types.shape(of)
}

fn push_number(alloc: Global, out: &mut Vec<u8>, number: u64) -> Result<(), AllocError>
    ensures { OnOk result (out.new.items ≡ out.old.items ++ decimal number) }
{
    let text = number.to_string(alloc)?;
    out.extend_from_slice(text.as_bytes())
}

/// Puts the texts of types behind the others, each behind a mark.
#[cycle(types)]
fn push_marked(
    alloc: Global,
    checked: &Checked,
    out: &mut Vec<u8>,
    bound: TypeId,
    mark: &[u8],
    types: &[TypeId],
) -> Result<(), AllocError>
    requires bound { bound ≤ length checked.now.types.shapes }
    requires below { AllByRecursion (λ t. t < bound) types.now }
    ensures { OnOk result (out.new.items ≡ out.old.items ++ marked mark.now (map (printed checked.now) types.now)) }
{
    for of in types {
        out.extend_from_slice(mark)?;
        push_type(alloc, checked, out, *of)?;
    }
    Ok(())
}

/// Puts the texts of types behind the others, with a comma between each two.
#[cycle(types)]
fn push_list(
    alloc: Global,
    checked: &Checked,
    out: &mut Vec<u8>,
    bound: TypeId,
    types: &[TypeId],
) -> Result<(), AllocError>
    requires bound { bound ≤ length checked.now.types.shapes }
    requires below { AllByRecursion (λ t. t < bound) types.now }
    ensures { OnOk result (out.new.items ≡ out.old.items ++ listed (map (printed checked.now) types.now)) }
{
    let Some((first, rest)) = types.split_first() else {
        return Ok(());
    };
    push_type(alloc, checked, out, *first)?;
    push_marked(alloc, checked, out, bound, b", ", rest)
}

/// Puts the results of a function type behind the others.
#[cycle(types)]
fn push_results(
    alloc: Global,
    checked: &Checked,
    out: &mut Vec<u8>,
    bound: TypeId,
    results: &[TypeId],
) -> Result<(), AllocError>
    requires bound { bound ≤ length checked.now.types.shapes }
    requires below { AllByRecursion (λ t. t < bound) results.now }
    ensures { OnOk result (out.new.items ≡ out.old.items ++ results_text (map (printed checked.now) results.now)) }
{
    match results {
        [] => Ok(()),
        [result] => {
            out.push(b' ')?;
            push_type(alloc, checked, out, *result)
        }
        _ => {
            out.extend_from_slice(b" (")?;
            push_list(alloc, checked, out, bound, results)?;
            Ok(out.push(b')')?)
        }
    }
}

/// Puts the name and the type of a field behind the others.
#[cycle(types)]
fn push_field(
    alloc: Global,
    checked: &Checked,
    out: &mut Vec<u8>,
    field: &Field,
) -> Result<(), AllocError>
    requires { field.now.ty < length checked.now.types.shapes }
    ensures { OnOk result (out.new.items ≡ out.old.items ++ printed_field checked.now field.now) }
{
    out.extend_from_slice(field.name.as_slice())?;
    out.push(b' ')?;
    push_type(alloc, checked, out, field.ty)
}

/// Puts the fields behind the others, each behind a semicolon.
#[cycle(types)]
fn push_further_fields(
    alloc: Global,
    checked: &Checked,
    out: &mut Vec<u8>,
    bound: TypeId,
    fields: &[Field],
) -> Result<(), AllocError>
    requires bound { bound ≤ length checked.now.types.shapes }
    requires below { AllByRecursion (λ f. f.ty < bound) fields.now }
    ensures { OnOk result (out.new.items ≡ out.old.items ++ marked (codes "; ") (map (printed_field checked.now) fields.now)) }
{
    for field in fields {
        out.extend_from_slice(b"; ")?;
        push_field(alloc, checked, out, field)?;
    }
    Ok(())
}

/// Puts a struct type behind the others.
#[cycle(types)]
fn push_struct(
    alloc: Global,
    checked: &Checked,
    out: &mut Vec<u8>,
    bound: TypeId,
    fields: &[Field],
) -> Result<(), AllocError>
    requires bound { bound ≤ length checked.now.types.shapes }
    requires below { AllByRecursion (λ f. f.ty < bound) fields.now }
    ensures { OnOk result (out.new.items ≡ out.old.items ++ fields_text (map (printed_field checked.now) fields.now)) }
{
    let Some((first, rest)) = fields.split_first() else {
        return out.extend_from_slice(b"struct {}");
    };
    out.extend_from_slice(b"struct { ")?;
    push_field(alloc, checked, out, first)?;
    push_further_fields(alloc, checked, out, bound, rest)?;
    out.extend_from_slice(b" }")
}

/// Puts a function type behind the others.
#[cycle(types)]
#[tactic(auto, using(crate::proofs::Rows::first_below, crate::proofs::Rows::second_below))]
fn push_function(
    alloc: Global,
    checked: &Checked,
    out: &mut Vec<u8>,
    bound: TypeId,
    params: &[TypeId],
    results: &[TypeId],
) -> Result<(), AllocError>
    requires bound { bound ≤ length checked.now.types.shapes }
    requires below { AllByRecursion (λ t. t < bound) (params.now ++ results.now) }
    ensures { OnOk result (out.new.items ≡ out.old.items ++ function_text (map (printed checked.now) params.now) (map (printed checked.now) results.now)) }
{
    out.extend_from_slice(b"func(")?;
    push_list(alloc, checked, out, bound, params)?;
    out.push(b')')?;
    push_results(alloc, checked, out, bound, results)
}

/// Puts a type behind the others.
#[cycle(types)]
#[tactic(auto, using(crate::proofs::Rows::printed_struct, crate::proofs::Rows::printed_function, crate::proofs::Rows::fields_below))]
fn push_type(
    alloc: Global,
    checked: &Checked,
    out: &mut Vec<u8>,
    of: TypeId,
) -> Result<(), AllocError>
    requires { of < length checked.now.types.shapes }
    ensures { OnOk result (out.new.items ≡ out.old.items ++ printed checked.now of) }
{
    match shape(checked.types(), of) {
        Shape::Bool => out.extend_from_slice(b"bool"),
        Shape::Text => out.extend_from_slice(b"string"),
        Shape::Int(kind) => out.extend_from_slice(kind_text(*kind)),
        Shape::Array { length, elem } => {
            out.push(b'[')?;
            push_number(alloc, out, u64::from(*length))?;
            out.push(b']')?;
            push_type(alloc, checked, out, *elem)
        }
        Shape::Slice { elem } => {
            out.extend_from_slice(b"[]")?;
            push_type(alloc, checked, out, *elem)
        }
        Shape::Struct { fields } => push_struct(alloc, checked, out, of, fields.as_slice()),
        Shape::Func { params, results } => {
            push_function(
                alloc,
                checked,
                out,
                of,
                params.as_slice(),
                results.as_slice(),
            )
        }
        Shape::Named { number } => out.extend_from_slice(declared_name(checked, *number)),
    }
}

/// The text of a type, by which it can be written where its names mean what they mean where they are declared (Go
/// specification, "Types").
///
/// # Errors
///
/// Want of memory.
pub fn type_text(alloc: Global, checked: &Checked, of: TypeId) -> Result<Bytes, Memory>
    requires { of < length checked.now.types.shapes }
    ensures { IfOk result (λ text. text ≡ type_text (declared_name checked.now) (type_of checked.now.types.shapes of)) }
{
    let mut out = Vec::new(alloc);
    push_type(alloc, checked, &mut out, of)?;
    Ok(Bytes::of(out))
}
