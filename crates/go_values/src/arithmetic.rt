//! The operators on whole numbers, whatever their kind.

ghost use Rattle.std.specs.Prelude.{◌≡◌, ◌≢◌, ◌*ℤ◌, ◌≤ℤ◌, ◌^◌, None, int_div, int_rem, neg_ℤ, pos, unsigned_abs};
ghost use Rattle.std.specs.Int.{int_shr};
ghost use Rattle.go_ints.specs.Arithmetic.{arithmetic, exact, trap_of};
ghost use Rattle.go_ints.specs.Wrapping.{IsCongruent};

use crate::integers::{within_word, wrap_into};
use go_ints::{Kind, Op, Trap, trap};

/// Go's `a op b` at the kind: the exact result over unbounded whole numbers, wrapped into the kind. The operands need be no
/// values of the kind.
pub(crate) fn arith(kind: Kind, op: Op, a: i128, b: i128) -> Result<i128, Trap>
    ensures { result ≡ arithmetic kind op a b }
{
    match trap(op, b) {
        Some(trap) => Err(trap),
        None => Ok(wrap_into(kind, unwrapped(op, a, b))),
    }
}

macro_rules! by_operator {
    ($op:expr, $a:expr, $b:expr; $($name:ident $result:expr),*) => {
        match $op {
            $(Op::$name => $result,)*
        }
    };
}

/// A number that differs from the exact result by a multiple of 2^64.
fn unwrapped(op: Op, a: i128, b: i128) -> i128
    requires { trap_of op b ≡ None }
    ensures { IsCongruent 64 result (exact op a b) }
{
    by_operator!(op, a, b;
        Add within_word(Kind::Int64, a) + within_word(Kind::Int64, b),
        Sub within_word(Kind::Int64, a) - within_word(Kind::Int64, b),
        Mul a.wrapping_mul(b),
        Div quotient(a, b),
        Rem remainder(a, b),
        And a & b,
        Or a | b,
        Xor a ^ b,
        AndNot a & !b,
        Shl shifted_left(a, b),
        Shr shifted_right(a, b),
        Min if b < a { b } else { a },
        Max if a < b { b } else { a })
}

/// A number that differs from the quotient by a multiple of 2^64.
fn quotient(a: i128, b: i128) -> i128
    requires { b ≢ pos 0 }
    ensures { IsCongruent 64 result (int_div a b) }
{
    if b == -1 {
        0 - within_word(Kind::Int64, a)
    } else {
        a / b
    }
}

/// The remainder.
fn remainder(a: i128, b: i128) -> i128
    requires { b ≢ pos 0 }
    ensures { result ≡ int_rem a b }
{
    if b == -1 { 0 } else { a % b }
}

/// A number that differs from `a`, `count` bits to the left, by a multiple of 2^64.
fn shifted_left(a: i128, count: i128) -> i128
    requires { pos 0 ≤ℤ count }
    ensures { IsCongruent 64 result (a *ℤ pos (2 ^ unsigned_abs count)) }
{
    if count < 64 { a << count as u32 } else { 0 }
}

/// `a`, `count` bits to the right, rounded down.
fn shifted_right(a: i128, count: i128) -> i128
    requires { pos 0 ≤ℤ count }
    ensures { result ≡ int_shr a (unsigned_abs count) }
{
    if count < 127 {
        a >> count as u32
    } else {
        a >> 127
    }
}
