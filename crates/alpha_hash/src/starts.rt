//! The numbers of windows, kept by their starts.

ghost use Rattle.std.specs.Prelude.{◌≡◌, ◌<◌, ◌+◌, ◌^◌, All, IfOk, OnOk, IfSome};
ghost use Rattle.go_typed.specs.Packages.{PackageView};
ghost use Rattle.alpha_hash_defs.specs.Packages.{window_hash};
ghost use Rattle.alpha_hash.specs.Starts.{AreStarts, HasWords, IsStart};

use crate::list_words::ListWords;
use crate::start::Start;
use go_base::Memory;
use go_typed::checked::Checked;
use go_typed::window::Window;
use std::alloc::{AllocError, Global};
use std::collections::HashMap;

/// The starts of windows in those lists of a function that were met so far.
#[derive(Drop)]
pub struct Starts {
    /// Where the first start of each list stands, by the numbers of the lists.
    places: HashMap<u32, usize>,
    starts: Vec<Start>,
}

impl Starts {
    /// No starts.
    pub fn new(alloc: Global) -> Starts
        ensures { (p : PackageView) → AreStarts p result }
    {
        Starts {
            places: HashMap::new(alloc),
            starts: Vec::new(alloc),
        }
    }

    /// The number of a window. All windows that begin in its list, there or behind, are numbered once for all.
    ///
    /// # Errors
    ///
    /// Want of memory.
    pub fn number(
        &mut self,
        alloc: Global,
        checked: &Checked,
        window: Window,
    ) -> Result<u64, Memory>
        requires { AreStarts checked.now self.old }
        ensures number { IfOk result (λ n. n ≡ window_hash checked.now window) }
        ensures starts { OnOk result (AreStarts checked.now self.new) }
    {
        if !self.places.contains_key(&window.list) {
            self.push_list(alloc, checked, window)?;
        }
        match self.known(window) {
            Some(number) => Ok(number),
            None => number_alone(alloc, checked, window),
        }
    }

    /// Puts the starts of the list of a window behind the others, from the one of the window on.
    fn push_list(&mut self, alloc: Global, checked: &Checked, window: Window) -> Result<(), Memory>
        requires { AreStarts checked.now self.old }
        ensures { OnOk result (AreStarts checked.now self.new) }
    {
        let run = Window {
            count: u32::MAX - window.first,
            ..window
        };
        let list = ListWords::of(alloc, checked, run)?;
        self.places.insert(window.list, self.starts.len())?;
        Ok(push_starts(alloc, &list, &mut self.starts)?)
    }

    /// The number of a window, if one of the starts has it.
    fn known(&self, window: Window) -> Option<u64>
        ensures { (p : PackageView) → AreStarts p self.now → IfSome result (λ n. n ≡ window_hash p window) }
    {
        let place = *self.places.get(&window.list)?;
        let first = self.starts.get(place)?;
        let later = window.first.saturating_sub(first.run.first) as usize;
        let start = self.starts.get(place.saturating_add(later))?;
        if start.covers(window) {
            return Some(start.number(window.count));
        }
        None
    }
}

/// Puts the starts of a list behind the others.
fn push_starts(alloc: Global, list: &ListWords, out: &mut Vec<Start>) -> Result<(), AllocError>
    requires { list.now.run.first + list.now.run.count < 2 ^ 32 }
    ensures { (p : PackageView) → HasWords p list.now → All (IsStart p) out.old.items → OnOk result (All (IsStart p) out.new.items) }
{
    for index in 0..list.count() {
        out.push(list.start(alloc, index)?)?;
    }
    Ok(())
}

/// The number of a window that no start has: one of more than 32 statements, or one that is no run of its list.
fn number_alone(alloc: Global, checked: &Checked, window: Window) -> Result<u64, Memory>
    ensures { IfOk result (λ n. n ≡ window_hash checked.now window) }
{
    let list = ListWords::of(alloc, checked, window)?;
    Ok(list.number(alloc)?)
}
