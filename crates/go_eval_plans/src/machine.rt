//! The state of a run.

use crate::exit::Exit;
use go_values::{Value, World};
use std::mem;

/// The locals of the function that runs, by their numbers, what calls share, and the turns that are left.
#[derive(Drop)]
pub struct Machine {
    pub frame: Vec<Value>,
    pub world: World,
    pub turns: u64,
}

impl Machine {
    ghost use Rattle.std.specs.Prelude.{◌≡◌};
    ghost use Rattle.go_eval_plans.specs.Machines.{IsSpent};

    /// Spends one turn.
    ///
    /// # Errors
    ///
    /// It is undecided where none is left.
    pub fn spend(&mut self) -> Result<(), Exit>
        ensures { IsSpent result self.old self.new }
    {
        if self.turns == 0 {
            return Err(Exit::Undecided);
        }
        self.turns -= 1;
        Ok(())
    }

    /// Takes another frame, and hands out the one before.
    pub fn enter(&mut self, frame: Vec<Value>) -> Vec<Value>
        ensures outer { result ≡ self.old.frame }
        ensures frame { self.new.frame ≡ frame }
        ensures world { self.new.world ≡ self.old.world }
        ensures turns { self.new.turns ≡ self.old.turns }
    {
        mem::replace(&mut self.frame, frame)
    }
}
