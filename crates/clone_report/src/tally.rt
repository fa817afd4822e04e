//! Counts of statements.

ghost use Rattle.std.specs.Prelude.{◌≡◌, ◌+◌, ◌∷◌, [], IfOk, OnOk};
ghost use Rattle.clone_report.specs.Ends.{added};

use go_base::Memory;

/// How many statements there are, and how many of them are covered.
#[derive(Clone, Copy, Debug, PartialEq, Eq)]
pub(crate) struct Tally {
    pub(crate) covered: u32,
    pub(crate) statements: u32,
}

impl Tally {
    /// Counts one more statement, which is covered or not. `Memory` where there are too many.
    pub(crate) fn count(&mut self, covered: bool) -> Result<(), Memory>
        ensures { OnOk result (self.new ≡ added self.old (covered ∷ [])) }
    {
        self.statements = next(self.statements)?;
        if covered {
            self.covered = next(self.covered)?;
        }
        Ok(())
    }
}

/// The next number. `Memory` where there is none.
pub(crate) fn next(number: u32) -> Result<u32, Memory>
    ensures { IfOk result (λ n. n ≡ number + 1) }
{
    number.checked_add(1).ok_or(Memory)
}
