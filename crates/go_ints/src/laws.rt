//! Laws of the definitions that the contracts cite. The functions do nothing: their contracts are the laws.
ghost use Rattle.std.specs.Prelude.{◌≡◌, ℕ, ◌+◌, ◌-◌, ◌%◌, ◌<◌, ◌↔◌, Bool, true, ℤ, pos, ◌+ℤ◌, ◌-ℤ◌, ◌*ℤ◌, min, max};
ghost use Rattle.std.specs.List.{AllByRecursion};
ghost use Rattle.go_ints.specs.Wrapping.{InRange, IsCongruent, wrapped};
ghost use Rattle.go_ints.specs.Kinds.{IsLayout};
ghost use Rattle.go_ints.specs.Bitwise.{bit_of, complement, bitwise_and, bitwise_or, bitwise_xor, bitwise_and_not};
ghost use Rattle.go_ints.specs.Examples.{Examples};

use crate::kinds::LAYOUTS;

/// A number wraps to the one value in range that differs from it by a multiple of 2^bits.
pub fn wrapped_values()
    ensures in_range { (bits : ℕ) (signed : Bool) (z : ℤ) → 0 < bits →
        InRange bits signed (wrapped bits signed z) }
    ensures multiple { (bits : ℕ) (signed : Bool) (z : ℤ) → IsCongruent bits (wrapped bits signed z) z }
    ensures only { (bits : ℕ) (signed : Bool) (r z : ℤ) → 0 < bits → InRange bits signed r →
        IsCongruent bits r z → r ≡ wrapped bits signed z }
    ensures fits { (bits : ℕ) (signed : Bool) (z : ℤ) → 0 < bits →
        (wrapped bits signed z ≡ z) ↔ InRange bits signed z }
{}

/// To add, subtract or multiply wrapped values and wrap is to wrap the exact result.
pub fn wrapped_arithmetic()
    ensures sum { (bits : ℕ) (signed : Bool) (x y : ℤ) → 0 < bits →
        wrapped bits signed (wrapped bits signed x +ℤ wrapped bits signed y)
        ≡ wrapped bits signed (x +ℤ y) }
    ensures difference { (bits : ℕ) (signed : Bool) (x y : ℤ) → 0 < bits →
        wrapped bits signed (wrapped bits signed x -ℤ wrapped bits signed y)
        ≡ wrapped bits signed (x -ℤ y) }
    ensures product { (bits : ℕ) (signed : Bool) (x y : ℤ) → 0 < bits →
        wrapped bits signed (wrapped bits signed x *ℤ wrapped bits signed y)
        ≡ wrapped bits signed (x *ℤ y) }
{}

/// In each row of the table the values from the least to the greatest are those that wrapping leaves alone.
pub fn layouts()
    ensures { AllByRecursion IsLayout LAYOUTS }
{}

/// The operators on bits act on each bit alone, in two's complement.
pub fn bits()
    ensures turned { (a : ℤ) (i : ℕ) → bit_of (complement a) i ≡ 1 - bit_of a i }
    ensures both { (a b : ℤ) (i : ℕ) → bit_of (bitwise_and a b) i ≡ min (bit_of a i) (bit_of b i) }
    ensures either { (a b : ℤ) (i : ℕ) → bit_of (bitwise_or a b) i ≡ max (bit_of a i) (bit_of b i) }
    ensures differing { (a b : ℤ) (i : ℕ) → bit_of (bitwise_xor a b) i ≡ (bit_of a i + bit_of b i) % 2 }
    ensures lacking { (a b : ℤ) (i : ℕ) → bit_of (bitwise_and_not a b) i ≡ min (bit_of a i) (1 - bit_of b i) }
{}

/// Worked examples.
pub fn examples()
    ensures { Examples }
{}
