//! What a type represents.
ghost use Rattle.std.specs.Prelude.{◌≡◌, ◌↔◌, IsTrue};
ghost use Rattle.go_constants.specs.Representing.{is_represented, IsRepresented};

use crate::values::Const;
use go_ints::{Kind, fits};

/// The underlying types that constants have.
#[derive(Clone, Copy, PartialEq, Eq, Debug)]
pub enum Basic {
    Bool,
    Text,
    Int(Kind),
}

/// Whether a value of the type is the constant's value: a boolean of `Bool`, a text of `Text`, and a
/// whole number or rune of an integer type in its range (Go specification, "Representability").
pub fn represent(c: &Const, basic: Basic) -> bool
    ensures value { IsTrue result ↔ IsRepresented c.now basic }
    ensures test { result ≡ is_represented c.now basic }
{
    match (c, basic) {
        (Const::Bool(_), Basic::Bool) => true,
        (Const::Text(_), Basic::Text) => true,
        (Const::Int { value, .. }, Basic::Int(kind)) => fits(kind, *value),
        _ => false,
    }
}
