//! Types of constants, in little room.

ghost use Rattle.std.specs.Prelude.{◌≡◌, ◌↔◌, ◌≤◌, ◌^◌, IfOk, IsErr};

use go_base::Memory;
use go_types::TypeId;
use std::marker::Model;

/// The type of a constant: what a `TypeId` says, in less room, since what a node stands for may be a constant.
#[derive(Clone, Copy, Debug)]
pub struct ConstantType {
    number: u32,
}

impl Model for ConstantType {
    ghost use Rattle.std.specs.Prelude.{ℕ};

    ghost Value = { ℕ };

    ghost use Rattle.std.proofs.Common.{refl};

    ghost view = { λ t. t.number };

    ghost inverse = { λ n. record { number = n } };

    ghost inverse_ok = { λ t h. refl };
}

impl ConstantType {
    /// This type.
    ///
    /// # Errors
    ///
    /// Want of memory, which is said of each type from the number 2^32 on and of no other.
    pub fn of(id: TypeId) -> Result<ConstantType, Memory>
        ensures value { IfOk result (λ t. t ≡ id) }
        ensures refused { IsErr result ↔ (2 ^ 32 ≤ id) }
    {
        match u32::try_from(id) {
            Ok(number) => Ok(ConstantType { number }),
            Err(_) => Err(Memory),
        }
    }

    /// The type.
    pub fn id(self) -> TypeId
        ensures { result ≡ self }
    {
        self.number as u64
    }
}
