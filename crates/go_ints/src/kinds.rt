//! The integer types, with their layouts.
ghost use Rattle.std.specs.Prelude.{◌≡◌, ◌↔◌, IsTrue};
ghost use Rattle.go_ints.specs.Kinds.{layout_of, is_value_of, IsValueOf};

/// An integer type of Go (Go specification, "Numeric types"). `int` and `uint` have 64 bits.
#[derive(Clone, Copy, PartialEq, Eq, Debug)]
pub enum Kind {
    Int8,
    Int16,
    Int32,
    Int64,
    Uint8,
    Uint16,
    Uint32,
    Uint64,
    Int,
    Uint,
}

/// How a kind lays out its values.
#[derive(Clone, Copy, PartialEq, Eq, Debug)]
pub struct Layout {
    /// The number of bits: 8, 16, 32 or 64.
    pub bits: u32,
    /// Whether the bits are read as two's complement.
    pub signed: bool,
    /// The least value.
    pub least: i128,
    /// The greatest value.
    pub greatest: i128,
}

macro_rules! layouts {
    ($($bits:literal $signed:literal $least:expr, $greatest:expr;)*) => {
        [$(Layout { bits: $bits, signed: $signed, least: $least, greatest: $greatest }),*]
    };
}

/// The layout of each kind, in the order of the kinds.
pub const LAYOUTS: [Layout; 10] = layouts! {
    8 true -0x80, 0x7f;
    16 true -0x8000, 0x7fff;
    32 true -0x8000_0000, 0x7fff_ffff;
    64 true -0x8000_0000_0000_0000, 0x7fff_ffff_ffff_ffff;
    8 false 0, 0xff;
    16 false 0, 0xffff;
    32 false 0, 0xffff_ffff;
    64 false 0, 0xffff_ffff_ffff_ffff;
    64 true -0x8000_0000_0000_0000, 0x7fff_ffff_ffff_ffff;
    64 false 0, 0xffff_ffff_ffff_ffff;
};

impl Kind {
    /// The kind's row of `LAYOUTS`.
    pub fn layout(self) -> Layout
        ensures { result ≡ layout_of self }
    {
        LAYOUTS[self as usize]
    }
}

/// Whether `x` is a value of the kind: from its least to its greatest value
/// (Go specification, "Numeric types", "Representability").
pub fn fits(kind: Kind, x: i128) -> bool
    ensures value { IsTrue result ↔ IsValueOf kind x }
    ensures test { result ≡ is_value_of kind x }
{
    let layout = kind.layout();
    layout.least <= x && x <= layout.greatest
}
