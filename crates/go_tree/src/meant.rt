//! What a token means, in little room.

ghost use Rattle.std.specs.Prelude.{◌≡◌, IfOk, None, Some, Option, is_err, nat_lt, not, ◌^◌};
ghost use Rattle.go_tree.specs.Packed.{IsPacked, is_short, has_short_numbers, unpacked};
ghost use Rattle.go_tree.specs.declared.object.Object.TheVariants as object;
ghost use Rattle.go_tree.specs.declared.object.Object.{Object};

use crate::object::{Object, Predeclared};
use go_base::Memory;
use std::marker::Model;

/// An object with numbers of 32 bits, and with those of locals, which are split, of 24 bits, if there is one.
#[derive(Clone, Copy, Debug)]
enum Packed {
    Nothing,
    Import,
    Predeclared(Predeclared),
    Package(u32),
    Local { high: u8, low: u16, function: u32 },
}

/// The object that a token means, if it means one: what an `Option<Object>` says, in less room, since there is one for each token.
#[derive(Clone, Copy, Debug)]
pub struct Meant {
    packed: Packed,
}

impl Model for Meant {
    ghost use Rattle.std.specs.Prelude.{Option};
    ghost use Rattle.go_tree.specs.declared.object.Object.{Object};

    ghost Value = { Option Object };

    ghost use Rattle.std.proofs.Common.{ap};
    ghost use Rattle.go_tree.specs.Packed.{IsPacked, unpacked, narrowed, narrowed_again};

    ghost view = { λ m. unpacked m.packed };

    ghost invariant = { λ m. IsPacked m.packed };

    ghost inverse = { λ o. record { packed = narrowed o } };

    ghost inverse_ok = { λ m h. ap (λ p. record { packed = p }) (narrowed_again m.packed h) };
}

impl Meant {
    /// No object.
    pub fn nothing() -> Meant
        ensures { result ≡ None }
    {
        Meant {
            packed: Packed::Nothing,
        }
    }

    /// This object.
    ///
    /// # Errors
    ///
    /// Want of memory, exactly for the number of a local from 2^24 on, or another number from 2^32 on. A function of a file of 1 MiB
    /// has fewer locals.
    pub fn of(object: Option<Object>) -> Result<Meant, Memory>
        ensures object { IfOk result (λ m. m ≡ object) }
        ensures refused { is_err result ≡ not (has_short_numbers object) }
    {
        let Some(object) = object else {
            return Ok(Meant::nothing());
        };
        let packed = match object {
            Object::Import => Packed::Import,
            Object::Predeclared(name) => Packed::Predeclared(name),
            Object::Package(number) => Packed::Package(narrow(number)?),
            Object::Local { function, number } => local(narrow(function)?, number)?,
        };
        Ok(Meant { packed })
    }

    /// The object.
    pub fn object(self) -> Option<Object>
        ensures { result ≡ self }
    {
        match self.packed {
            Packed::Nothing => None,
            Packed::Import => Some(Object::Import),
            Packed::Predeclared(name) => Some(Object::Predeclared(name)),
            Packed::Package(number) => Some(Object::Package(number as usize)),
            Packed::Local {
                high,
                low,
                function,
            } => Some(Object::Local {
                function: function as usize,
                number: high as usize * 65536 + low as usize,
            }),
        }
    }
}

/// The number in 32 bits.
fn narrow(number: usize) -> Result<u32, Memory>
    ensures number { IfOk result (λ n. n ≡ number) }
    ensures refused { is_err result ≡ not (is_short number) }
{
    u32::try_from(number).map_err(|_| Memory)
}

/// The local of this number of this function.
fn local(function: u32, number: usize) -> Result<Packed, Memory>
    ensures packed { IfOk result (λ p. IsPacked p × (unpacked p ≡ Some (object.Local function number))) }
    ensures refused { is_err result ≡ not (nat_lt number (2 ^ 24)) }
{
    let high = u8::try_from(number / 65536).map_err(|_| Memory)?;
    Ok(Packed::Local {
        high,
        low: (number % 65536) as u16,
        function,
    })
}
