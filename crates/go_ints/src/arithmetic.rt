//! The operators on values of a kind.
ghost use Rattle.std.specs.Prelude.{◌≡◌, ◌^◌, ◌*ℤ◌, ◌≤ℤ◌, None, false, pos, unsigned_abs};
ghost use Rattle.std.specs.Int.{int_shr};
ghost use Rattle.go_ints.specs.Arithmetic.{AreOperands, arithmetic, exact, trap_of, is_shift};
ghost use Rattle.go_ints.specs.Kinds.{IsWord, wrapped_into};
ghost use Rattle.go_ints.specs.Wrapping.{IsCongruent};

use crate::kinds::Kind;
use crate::operators::{Op, Trap};
use crate::wrapping::wrap;

/// Go's `a op b` at the kind: the exact result over unbounded whole numbers, wrapped into the kind.
///
/// `a` is a value of the kind, and so is `b`, which may be any number where `op` is a shift.
/// `/` truncates toward zero and `%` has the sign of `a`, so the least value divided by -1 is
/// itself, with the remainder 0. A shift by the width or more gives 0, or -1 to the right of a
/// negative value (Go specification, "Arithmetic operators", "Integer operators",
/// "Integer overflow").
///
/// # Errors
/// `DivideZero` exactly where `op` is `Div` or `Rem` and `b` is 0, `NegativeShift` exactly where
/// `op` is `Shl` or `Shr` and `b` is negative.
pub fn arith(kind: Kind, op: Op, a: i128, b: i128) -> Result<i128, Trap>
    requires { AreOperands kind op a b }
    ensures { result ≡ arithmetic kind op a b }
{
    match trap(op, b) {
        Some(trap) => Err(trap),
        None => Ok(wrap_into(kind, unwrapped(op, a, b))),
    }
}

/// Why `op` has no result at the right operand `b`.
pub fn trap(op: Op, b: i128) -> Option<Trap>
    ensures { result ≡ trap_of op b }
{
    match op {
        Op::Div | Op::Rem if b == 0 => Some(Trap::DivideZero),
        Op::Shl | Op::Shr if b < 0 => Some(Trap::NegativeShift),
        _ => None,
    }
}

macro_rules! at_kind {
    ($kind:expr, $x:expr; $($name:ident $bits:literal $signed:literal),*) => {
        match $kind {
            $(Kind::$name => wrap::<$bits, $signed>($x),)*
        }
    };
}

/// The value of the kind that `x` wraps to.
fn wrap_into(kind: Kind, x: i128) -> i128
    ensures { result ≡ wrapped_into kind x }
{
    at_kind!(kind, x;
        Int8 8 true, Int16 16 true, Int32 32 true, Int64 64 true,
        Uint8 8 false, Uint16 16 false, Uint32 32 false, Uint64 64 false,
        Int 64 true, Uint 64 false)
}

macro_rules! by_operator {
    ($op:expr, $a:expr, $b:expr; $($name:ident $result:expr),*) => {
        match $op {
            $(Op::$name => $result,)*
        }
    };
}

/// A number that differs from the exact result by a multiple of 2^64.
fn unwrapped(op: Op, a: i128, b: i128) -> i128
    requires word { IsWord a }
    requires operand { is_shift op ≡ false → IsWord b }
    requires no_trap { trap_of op b ≡ None }
    ensures { IsCongruent 64 result (exact op a b) }
{
    by_operator!(op, a, b;
        Add a + b,
        Sub a - b,
        Mul a.wrapping_mul(b),
        Div a / b,
        Rem a % b,
        And a & b,
        Or a | b,
        Xor a ^ b,
        AndNot a & !b,
        Shl shifted_left(a, b),
        Shr shifted_right(a, b),
        Min if b < a { b } else { a },
        Max if a < b { b } else { a })
}

/// A number that differs from `a`, `count` bits to the left, by a multiple of 2^64.
fn shifted_left(a: i128, count: i128) -> i128
    requires { pos 0 ≤ℤ count }
    ensures { IsCongruent 64 result (a *ℤ pos (2 ^ unsigned_abs count)) }
{
    if count < 64 { a << count as u32 } else { 0 }
}

/// `a`, `count` bits to the right, rounded down.
fn shifted_right(a: i128, count: i128) -> i128
    requires word { IsWord a }
    requires count { pos 0 ≤ℤ count }
    ensures { result ≡ int_shr a (unsigned_abs count) }
{
    if count < 64 {
        a >> count as u32
    } else {
        a >> 64
    }
}
