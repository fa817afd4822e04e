//! Wrapping a whole number into a number of bits.
ghost use Rattle.std.specs.Prelude.{◌≡◌, ◌<◌, ◌^◌, pos};
ghost use Rattle.go_ints.specs.Wrapping.{IsWidth, wrapped};

/// The value of `BITS` bits, signed or not, that differs from `x` by a multiple of 2^BITS
/// (Go specification, "Integer overflow"). `BITS` is 8, 16, 32 or 64.
pub fn wrap<const BITS: u32, const SIGNED: bool>(x: i128) -> i128
    requires { IsWidth BITS }
    ensures { result ≡ wrapped BITS SIGNED x }
{
    let modulus = power_of_two(BITS);
    let rest = x.rem_euclid(modulus);
    if SIGNED && modulus <= 2 * rest {
        rest - modulus
    } else {
        rest
    }
}

fn power_of_two(exponent: u32) -> i128
    requires { exponent < 65 }
    ensures { result ≡ pos (2 ^ exponent) }
{
    1 << exponent
}
