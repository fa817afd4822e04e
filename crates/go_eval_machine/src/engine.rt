//! The state of the machine, and small changes of it.

use crate::task::{Task, What};
use go_base::Memory;
use go_eval_plans::machine::Machine;
use go_typed::node::TypedNode;
use go_values::Value;
use std::alloc::Global;

/// The tasks that are left, the last one on top; the values that were given so far; the frame, the world and the turns; and how
/// many calls deeper a call may still go.
#[derive(Drop)]
pub struct Engine<'a> {
    pub tasks: Vec<Task<'a>>,
    pub values: Vec<Value>,
    pub machine: Machine,
    pub depth: u32,
}

impl<'a> Engine<'a> {
    ghost use Rattle.std.specs.Prelude.{◌≡◌, ◌++◌, ◌∷◌, [], IfOk, OnOk, length, take, drop};
    ghost use Rattle.go_values.specs.Views.{view, views};
    ghost use Rattle.go_eval_machine.specs.Engines.{IsPushed, IsKept};

    /// Puts a task on top.
    ///
    /// # Errors
    ///
    /// Want of memory.
    pub fn push(&mut self, node: &'a TypedNode, base: usize, what: What) -> Result<(), Memory>
        ensures { OnOk result (IsPushed node.now base what self.old self.new) }
    {
        self.tasks.push(Task { node, base, what })?;
        Ok(())
    }

    /// Puts a value behind the others.
    ///
    /// # Errors
    ///
    /// Want of memory.
    pub fn give(&mut self, value: Value) -> Result<(), Memory>
        ensures values { OnOk result (views self.new.values.items ≡ views self.old.values.items ++ view value ∷ []) }
        ensures kept { OnOk result (IsKept self.old self.new) }
    {
        self.values.push(value)?;
        Ok(())
    }

    /// Takes the values behind the base out.
    ///
    /// # Errors
    ///
    /// Want of memory.
    pub fn take(&mut self, alloc: Global, base: usize) -> Result<Vec<Value>, Memory>
        ensures taken { IfOk result (λ us. views us.items ≡ drop base (views self.old.values.items)) }
        ensures values { OnOk result (views self.new.values.items ≡ take base (views self.old.values.items)) }
        ensures kept { OnOk result (IsKept self.old self.new) }
    {
        if base < self.values.len() {
            Ok(self.values.split_off(base)?)
        } else {
            Ok(Vec::new(alloc))
        }
    }

    /// How many values there are.
    pub fn top(&self) -> usize
        ensures { result ≡ length (views self.now.values.items) }
    {
        self.values.as_slice().len()
    }

    /// Drops the values behind the base.
    pub fn cut(&mut self, base: usize)
        ensures values { views self.new.values.items ≡ take base (views self.old.values.items) }
        ensures kept { IsKept self.old self.new }
    {
        let top = self.top();
        if base >= top {
            return;
        }
        self.values.truncate(base);
    }
}
