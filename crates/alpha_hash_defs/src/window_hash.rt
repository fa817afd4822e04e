//! What every hash of windows gives.

ghost use Rattle.std.specs.Prelude.{◌≡◌, ◌≤◌, ℕ, map, nat_eq, slice_get, IfOk};
ghost use Rattle.go_typed.specs.declared.window.Window.{Window as Run};
ghost use Rattle.go_typed.specs.Packages.{PackageView as Package};
ghost use Rattle.clone_window.specs.Bodies.{bodies_of};
ghost use Rattle.alpha_hash_defs.specs.Sharing.{IsLawful, numbered, windows_of_func};

use clone_window::windows::windows_of;
use go_base::Memory;
use go_typed::checked::Checked;
use go_typed::window::Window;
use std::alloc::{AllocError, Global};

/// A number for each window of a package. Windows that are the same have one number, within each package, and between packages
/// that give their types and objects the same names.
pub trait WindowHash {
    /// The number of a window of a package.
    ghost number: { Self → Package → Run → ℕ };

    /// The windows of a function of a package, in the order of `windows_of`, each once and with its number; none where there is no
    /// such function.
    ///
    /// # Errors
    ///
    /// Want of memory.
    fn hashes(
        &self,
        alloc: Global,
        checked: &Checked,
        func: u32,
        min: u32,
        mass: u32,
    ) -> Result<Vec<(Window, u64)>, Memory>
        requires some { 1 ≤ min }
        requires at_most { min ≤ 32 }
        requires heavy { 1 ≤ mass }
        requires light { mass ≤ 1000 }
        ensures { IfOk result (λ v. v.items ≡ numbered (number self.now checked.now) (windows_of_func (record { fewest = min; least = mass }) (bodies_of checked.now.functions) func)) };

    /// Windows that are the same have one number.
    ghost lawful: { (h : Self) → IsLawful (number h) };
}

/// The windows of the function of this number of a package; none where there is no such function.
///
/// # Errors
///
/// Want of memory.
pub fn windows_of_function(
    alloc: Global,
    checked: &Checked,
    func: u32,
    min: u32,
    mass: u32,
) -> Result<Vec<Window>, Memory>
    requires some { 1 ≤ min }
    requires at_most { min ≤ 32 }
    requires heavy { 1 ≤ mass }
    requires light { mass ≤ 1000 }
    ensures { IfOk result (λ v. v.items ≡ windows_of_func (record { fewest = min; least = mass }) (bodies_of checked.now.functions) func) }
{
    let _types = checked.types();
    match checked.function(func) {
        Some(f) => windows_of(alloc, f, min, mass),
        None => Ok(Vec::new(alloc)),
    }
}

/// The hash that gives each window the number 0, so that nothing is told apart by it.
#[derive(Clone, Copy, Debug)]
pub struct ConstantHash;

impl WindowHash for ConstantHash {
    ghost use Rattle.std.specs.Prelude.{refl};

    ghost number = { λ h p w. 0 };

    ghost lawful = { λ h identical p q share w v same. refl };

    fn hashes(
        &self,
        alloc: Global,
        checked: &Checked,
        func: u32,
        min: u32,
        mass: u32,
    ) -> Result<Vec<(Window, u64)>, Memory> {
        let windows = windows_of_function(alloc, checked, func, min, mass)?;
        Ok(zeros(alloc, &windows)?)
    }
}

/// Windows, each with the number 0.
fn zeros(alloc: Global, windows: &[Window]) -> Result<Vec<(Window, u64)>, AllocError>
    ensures { IfOk result (λ v. v.items ≡ numbered (λ w. 0) windows.now) }
{
    let mut out = Vec::with_capacity(alloc, windows.len())?;
    for window in windows {
        out.push((*window, 0))?;
    }
    Ok(out)
}
