//! The operators on whole numbers from -2^127 to 2^127-1, exactly.
ghost use Rattle.std.specs.Prelude.{◌≡◌, ◌^◌, ◌*ℤ◌, ◌≤ℤ◌, None, pos, unsigned_abs, FitsSigned};
ghost use Rattle.std.specs.Int.{w128, int_shr};
ghost use Rattle.std.specs.Option.{SomeIff, option_map};
ghost use Rattle.go_ints.specs.Arithmetic.{exact, trap_of};
ghost use Rattle.go_constants.specs.Folding.{trap_fault, whole_result};

use crate::values::ConstFault;
use go_ints::Op;

/// `a op b` over unbounded whole numbers.
///
/// # Errors
/// `Operands` for a shift by a negative count, `DivideZero` for a division or remainder by 0, and
/// else `TooWide` where the result lies outside -2^127 to 2^127-1.
pub(crate) fn exact(op: Op, a: i128, b: i128) -> Result<i128, ConstFault>
    ensures { result ≡ whole_result op a b }
{
    match refusal(op, b) {
        Some(fault) => Err(fault),
        None => within_width(op, a, b).ok_or(ConstFault::TooWide),
    }
}

/// Why `op` has no result at the right operand `b`.
fn refusal(op: Op, b: i128) -> Option<ConstFault>
    ensures { result ≡ option_map trap_fault (trap_of op b) }
{
    match op {
        Op::Shl | Op::Shr if b < 0 => Some(ConstFault::Operands),
        Op::Div | Op::Rem if b == 0 => Some(ConstFault::DivideZero),
        _ => None,
    }
}

/// The exact result, where it lies within 128 bits.
fn within_width(op: Op, a: i128, b: i128) -> Option<i128>
    requires { trap_of op b ≡ None }
    ensures { SomeIff result (FitsSigned w128 (exact op a b)) (exact op a b) }
{
    match op {
        Op::Add => a.checked_add(b),
        Op::Sub => a.checked_sub(b),
        Op::Mul => a.checked_mul(b),
        Op::Div => a.checked_div(b),
        Op::Rem => Some(a.wrapping_rem(b)),
        Op::And => Some(a & b),
        Op::Or => Some(a | b),
        Op::Xor => Some(a ^ b),
        Op::AndNot => Some(a & !b),
        Op::Shl => shifted_left(a, b),
        Op::Shr => Some(shifted_right(a, b)),
        Op::Min => Some(if b < a { b } else { a }),
        Op::Max => Some(if a < b { b } else { a }),
    }
}

/// `a` times 2^count, where that lies within 128 bits. No power above 2^126 is computed.
fn shifted_left(a: i128, count: i128) -> Option<i128>
    requires { pos 0 ≤ℤ count }
    ensures { let z = a *ℤ pos (2 ^ unsigned_abs count) in SomeIff result (FitsSigned w128 z) z }
{
    if count < 127 {
        a.checked_mul(1 << count as u32)
    } else if count == 127 {
        shifted_to_sign(a)
    } else if a == 0 {
        Some(0)
    } else {
        None
    }
}

/// `a` times 2^127, where that lies within 128 bits.
fn shifted_to_sign(a: i128) -> Option<i128>
    ensures { let z = a *ℤ pos (2 ^ 127) in SomeIff result (FitsSigned w128 z) z }
{
    match a {
        0 => Some(0),
        -1 => Some(i128::MIN),
        _ => None,
    }
}

/// `a` divided by 2^count, rounded down.
fn shifted_right(a: i128, count: i128) -> i128
    requires { pos 0 ≤ℤ count }
    ensures { result ≡ int_shr a (unsigned_abs count) }
{
    if count < 127 {
        a >> count as u32
    } else {
        a >> 127
    }
}
