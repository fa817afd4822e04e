//! The keys by which equal shapes are found.
ghost use Rattle.std.specs.Prelude.{◌≡◌, IfOk, OnOk, ◌++◌, ◌∷◌, length};
ghost use Rattle.go_types.specs.Keys.{key, kind_number, name_key, fields_key};

use crate::shape::{Field, Shape, TypeId};
use go_ints::Kind;
use std::alloc::{AllocError, Global};

/// The key of a shape: other shapes have other keys.
#[tactic(auto, unfolding(crate::specs::Keys::key))]
pub fn key_of(alloc: Global, shape: &Shape) -> Result<Vec<u64>, AllocError>
    ensures { IfOk result (λ k. k.items ≡ key shape.now) }
{
    match shape {
        Shape::Bool => numbers(alloc, &[0]),
        Shape::Text => numbers(alloc, &[1]),
        Shape::Int(kind) => numbers(alloc, &[2, kind_number(*kind)]),
        Shape::Array { length, elem } => numbers(alloc, &[3, u64::from(*length), *elem]),
        Shape::Slice { elem } => numbers(alloc, &[4, *elem]),
        Shape::Struct { fields } => struct_key(alloc, fields.as_slice()),
        Shape::Func { params, results } => func_key(alloc, params.as_slice(), results.as_slice()),
        Shape::Named { number } => numbers(alloc, &[7, *number]),
    }
}

/// These numbers.
fn numbers(alloc: Global, items: &[u64]) -> Result<Vec<u64>, AllocError>
    ensures { IfOk result (λ k. k.items ≡ items.now) }
{
    Vec::from_slice(alloc, items)
}

/// The place of a kind among the kinds.
fn kind_number(kind: Kind) -> u64
    ensures { result ≡ kind_number kind }
{
    match kind {
        Kind::Int8 => 0,
        Kind::Int16 => 1,
        Kind::Int32 => 2,
        Kind::Int64 => 3,
        Kind::Uint8 => 4,
        Kind::Uint16 => 5,
        Kind::Uint32 => 6,
        Kind::Uint64 => 7,
        Kind::Int => 8,
        Kind::Uint => 9,
    }
}

fn struct_key(alloc: Global, fields: &[Field]) -> Result<Vec<u64>, AllocError>
    ensures { IfOk result (λ k. k.items ≡ 5 ∷ fields_key fields.now) }
{
    let mut key = numbers(alloc, &[5])?;
    for field in fields {
        key.push(field.ty)?;
        push_name(&mut key, field.name.as_slice())?;
    }
    Ok(key)
}

/// Puts a name's length and bytes behind the numbers.
fn push_name(key: &mut Vec<u64>, name: &[u8]) -> Result<(), AllocError>
    ensures { OnOk result (key.new.items ≡ key.old.items ++ name_key name.now) }
{
    key.push(name.len() as u64)?;
    for byte in name {
        key.push(u64::from(*byte))?;
    }
    Ok(())
}

fn func_key(alloc: Global, params: &[TypeId], results: &[TypeId]) -> Result<Vec<u64>, AllocError>
    ensures { IfOk result (λ k. k.items ≡ 6 ∷ length params.now ∷ (params.now ++ results.now)) }
{
    let mut key = numbers(alloc, &[6, params.len() as u64])?;
    key.extend_from_slice(params)?;
    key.extend_from_slice(results)?;
    Ok(key)
}
