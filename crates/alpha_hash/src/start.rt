//! The numbers of all windows from one start.

ghost use Rattle.std.specs.Prelude.{◌≡◌};
ghost use Rattle.alpha_hash.specs.Starts.{covers, number_of};

use go_typed::window::Window;

/// Where windows begin, and the numbers of those of no statement to the most ones.
#[derive(Debug, Drop)]
pub struct Start {
    /// The longest window.
    pub run: Window,
    pub numbers: Vec<u64>,
}

impl Start {
    /// Whether a window begins here and has a number here.
    pub fn covers(&self, window: Window) -> bool
        ensures { result ≡ covers self.now window }
    {
        self.run.func == window.func
            && self.run.list == window.list
            && self.run.first == window.first
            && window.count <= self.run.count
    }

    /// The number of the window of so many statements.
    pub fn number(&self, count: u32) -> u64
        ensures { result ≡ number_of self.now.numbers.items count }
    {
        number_of(&self.numbers, count as usize)
    }
}

/// The number at a place, and 0 where there is none.
pub fn number_of(numbers: &[u64], place: usize) -> u64
    ensures { result ≡ number_of numbers.now place }
{
    match numbers.get(place) {
        Some(number) => *number,
        None => 0,
    }
}
