//! Bytes that are shared: one more owner of them copies nothing.

ghost use Rattle.std.specs.Prelude.{◌≡◌, ◌++◌, IfOk, length, nat_eq};
ghost use Rattle.std.specs.Cmp.{partial_equiv_from_equiv};
ghost use Rattle.std.specs.Cmp.Lexicographic.{pointwise, nat_list_eq_equiv};

use go_base::Memory;
use std::alloc::Global;
use std::marker::Model;
use std::rc::RcSlice;

/// Bytes that any number of owners share. A clone is one more owner, so it takes constant time and memory.
#[derive(Clone, Debug, Drop)]
pub struct SharedBytes {
    items: RcSlice<u8>,
}

impl Model for SharedBytes {
    ghost use Rattle.std.specs.Prelude.{List, ℕ};
    ghost use Rattle.std.specs.Rc.{rc_slice_items};

    ghost Value = { List ℕ };

    ghost view = { λ b. rc_slice_items b.items };
}

impl SharedBytes {
    /// The bytes of a `Vec`, which is kept.
    ///
    /// # Errors
    ///
    /// Want of memory.
    pub fn of(items: Vec<u8>) -> Result<SharedBytes, Memory>
        ensures { IfOk result (λ b. b ≡ items.items) }
    {
        let items = RcSlice::from_vec(items)?;
        Ok(SharedBytes { items })
    }

    /// A copy of a slice.
    ///
    /// # Errors
    ///
    /// Want of memory.
    pub fn from_slice(alloc: Global, bytes: &[u8]) -> Result<SharedBytes, Memory>
        ensures { IfOk result (λ b. b ≡ bytes.now) }
    {
        SharedBytes::of(Vec::from_slice(alloc, bytes)?)
    }

    /// The one bytes and then the other ones.
    ///
    /// # Errors
    ///
    /// Want of memory.
    pub fn joined(alloc: Global, a: &[u8], b: &[u8]) -> Result<SharedBytes, Memory>
        ensures { IfOk result (λ t. t ≡ a.now ++ b.now) }
    {
        let mut joined = Vec::with_capacity(alloc, a.len() + b.len())?;
        joined.extend_from_slice(a)?;
        joined.extend_from_slice(b)?;
        SharedBytes::of(joined)
    }

    /// All the bytes.
    pub fn as_slice(&self) -> &[u8]
        ensures { result.now ≡ self.now }
    {
        self.items.as_slice()
    }

    /// One more owner of the bytes.
    ///
    /// # Errors
    ///
    /// Want of memory.
    pub fn shared(&self) -> Result<SharedBytes, Memory>
        ensures { IfOk result (λ b. b ≡ self.now) }
    {
        Ok(self.clone()?)
    }
}

impl PartialEq for SharedBytes {
    ghost eq = { pointwise nat_eq };

    ghost laws = { partial_equiv_from_equiv nat_list_eq_equiv };

    fn eq(&self, other: &SharedBytes) -> bool {
        self.as_slice() == other.as_slice()
    }
}

impl Eq for SharedBytes {
    ghost laws = { nat_list_eq_equiv };
}
