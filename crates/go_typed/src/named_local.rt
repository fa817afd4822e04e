//! Which local a token names, in little room.

ghost use Rattle.std.specs.Prelude.{◌≡◌, ◌↔◌, ◌^◌, ◌-◌, IfOk, IsErr, None, Option, Some};

use go_base::Memory;
use std::marker::Model;

/// The local that a token names, if it names one: what an `Option<u32>` says, in less room, since there is one for each token.
#[derive(Clone, Copy, Debug)]
pub struct NamedLocal {
    /// 0 for none, and otherwise the number after that of the local.
    number: u32,
}

impl Model for NamedLocal {
    ghost use Rattle.std.specs.Prelude.{ℕ, Option};

    ghost Value = { Option ℕ };

    ghost use Rattle.std.proofs.Common.{ap};
    ghost use Rattle.go_typed.specs.NamedLocals.{named, number_of, numbered_again};

    ghost view = { λ l. named l.number };

    ghost inverse = { λ o. record { number = number_of o } };

    ghost inverse_ok = { λ l h. ap (λ n. record { number = n }) (numbered_again l.number) };
}

impl NamedLocal {
    /// No local.
    pub fn none() -> NamedLocal
        ensures { result ≡ None }
    {
        NamedLocal { number: 0 }
    }

    /// This local, if there is one.
    ///
    /// # Errors
    ///
    /// Want of memory, which is said of the local 2^32-1 alone.
    pub fn of(local: Option<u32>) -> Result<NamedLocal, Memory>
        ensures value { IfOk result (λ l. l ≡ local) }
        ensures refused { IsErr result ↔ (local ≡ Some (2 ^ 32 - 1)) }
    {
        match local {
            None => Ok(NamedLocal::none()),
            Some(u32::MAX) => Err(Memory),
            Some(local) => Ok(NamedLocal { number: local + 1 }),
        }
    }

    /// The local.
    pub fn local(self) -> Option<u32>
        ensures { result ≡ self }
    {
        self.number.checked_sub(1)
    }
}
