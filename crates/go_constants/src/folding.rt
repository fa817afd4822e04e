//! Operations on constants.
ghost use Rattle.std.specs.Prelude.{◌≡◌, false};
ghost use Rattle.go_base.specs.Gives.{Gives};
ghost use Rattle.go_constants.specs.Folding.{folded, folded_bools, folded_wholes, folded_texts, comparison, refusal_of, itself, rune_mark, gives_text, least_text, greatest_text, takes_memory};

use crate::shared::SharedBytes;
use crate::values::{Const, ConstFault, ConstOp};
use crate::wholes::exact;
use go_ints::Op;
use std::alloc::Global;
use std::cmp::Ordering;

/// The value of `a op b`.
///
/// `-x` is `0 - x`, `^x` is `-1 ^ x` and `!x` is `x == false`.
///
/// Whole numbers and runes take every operator but `&&` and `||`: the result is exact, and a rune
/// where one of the operands is one, or where the left one is for a shift, whose count may be any
/// that is not negative. Booleans take `==`, `!=`, `&&` and `||`, texts `+`, `min`, `max` and the
/// comparisons, by their bytes (Go specification, "Constant expressions", "Arithmetic operators",
/// "Comparison operators", "String concatenation", "Min and max").
///
/// # Errors
/// `Operands` exactly where the operation is not defined on the two operands or the count of a
/// shift is negative, else `DivideZero` exactly where a divisor is 0, else `TooWide` exactly where
/// the result lies outside -2^127 to 2^127-1. `Memory` where memory ran out, for a text alone.
pub fn fold(alloc: Global, op: ConstOp, a: &Const, b: &Const) -> Result<Const, ConstFault>
    ensures value { Gives itself refusal_of result (folded op a.now b.now) }
    ensures no_memory { takes_memory op a.now b.now ≡ false → result ≡ folded op a.now b.now }
{
    match (a, b) {
        (Const::Bool(a), Const::Bool(b)) => fold_bools(op, *a, *b),
        (
            Const::Int {
                value: a,
                rune: left,
            },
            Const::Int {
                value: b,
                rune: right,
            },
        ) => fold_wholes(op, *a, *left, *b, *right),
        (Const::Text(a), Const::Text(b)) => fold_texts(alloc, op, a, b),
        _ => Err(ConstFault::Operands),
    }
}

fn fold_bools(op: ConstOp, a: bool, b: bool) -> Result<Const, ConstFault>
    ensures { result ≡ folded_bools op a b }
{
    match op {
        ConstOp::Eq => Ok(Const::Bool(a == b)),
        ConstOp::Ne => Ok(Const::Bool(a != b)),
        ConstOp::Both => Ok(Const::Bool(a && b)),
        ConstOp::Either => Ok(Const::Bool(a || b)),
        _ => Err(ConstFault::Operands),
    }
}

fn fold_wholes(op: ConstOp, a: i128, left: bool, b: i128, right: bool) -> Result<Const, ConstFault>
    ensures { result ≡ folded_wholes op a left b right }
{
    match op {
        ConstOp::Arith(op) => Ok(Const::Int {
            value: exact(op, a, b)?,
            rune: is_rune(op, left, right),
        }),
        _ => compare(op, a.cmp(&b)),
    }
}

fn is_rune(op: Op, left: bool, right: bool) -> bool
    ensures { result ≡ rune_mark op left right }
{
    match op {
        Op::Shl | Op::Shr => left,
        _ => left || right,
    }
}

fn fold_texts(
    alloc: Global,
    op: ConstOp,
    a: &SharedBytes,
    b: &SharedBytes,
) -> Result<Const, ConstFault>
    ensures value { Gives itself refusal_of result (folded_texts op a.now b.now) }
    ensures no_memory { gives_text op ≡ false → result ≡ folded_texts op a.now b.now }
{
    match op {
        ConstOp::Arith(Op::Add) => Ok(Const::Text(SharedBytes::joined(
            alloc,
            a.as_slice(),
            b.as_slice(),
        )?)),
        ConstOp::Arith(Op::Min) => Ok(Const::Text(least(a, b).shared()?)),
        ConstOp::Arith(Op::Max) => Ok(Const::Text(greatest(a, b).shared()?)),
        ConstOp::Arith(_) => Err(ConstFault::Operands),
        _ => compare(op, a.as_slice().cmp(b.as_slice())),
    }
}

/// The lesser of two texts, by their bytes.
fn least<'a>(a: &'a SharedBytes, b: &'a SharedBytes) -> &'a SharedBytes
    ensures { result.now ≡ least_text a.now b.now }
{
    if a.as_slice().cmp(b.as_slice()).is_le() {
        a
    } else {
        b
    }
}

/// The greater of two texts, by their bytes.
fn greatest<'a>(a: &'a SharedBytes, b: &'a SharedBytes) -> &'a SharedBytes
    ensures { result.now ≡ greatest_text a.now b.now }
{
    if a.as_slice().cmp(b.as_slice()).is_le() {
        b
    } else {
        a
    }
}

/// The boolean that a comparison gives at two values in this order.
fn compare(op: ConstOp, order: Ordering) -> Result<Const, ConstFault>
    ensures { result ≡ comparison op order }
{
    match op {
        ConstOp::Eq => Ok(Const::Bool(order.is_eq())),
        ConstOp::Ne => Ok(Const::Bool(order.is_ne())),
        ConstOp::Lt => Ok(Const::Bool(order.is_lt())),
        ConstOp::Le => Ok(Const::Bool(order.is_le())),
        ConstOp::Gt => Ok(Const::Bool(order.is_gt())),
        ConstOp::Ge => Ok(Const::Bool(order.is_ge())),
        _ => Err(ConstFault::Operands),
    }
}
