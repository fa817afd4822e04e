//! The hash that tells names of locals and constants of holes not apart.

use crate::numbered::numbers_of;
use alpha_hash_defs::window_hash::{WindowHash, windows_of_function};
use go_base::Memory;
use go_typed::checked::Checked;
use go_typed::window::Window;
use std::alloc::Global;

/// The rolling number of windows.
#[derive(Clone, Copy, Debug, Default)]
pub struct AlphaHash;

impl WindowHash for AlphaHash {
    ghost use Rattle.alpha_hash_defs.specs.Packages.{window_hash};
    ghost use Rattle.alpha_hash_defs.proofs.Windows.{hash-lawful};

    ghost number = { λ h p w. window_hash p w };

    ghost lawful = { λ h. hash-lawful };

    fn hashes(
        &self,
        alloc: Global,
        checked: &Checked,
        func: u32,
        min: u32,
        mass: u32,
    ) -> Result<Vec<(Window, u64)>, Memory> {
        let windows = windows_of_function(alloc, checked, func, min, mass)?;
        numbers_of(alloc, checked, &windows)
    }
}
