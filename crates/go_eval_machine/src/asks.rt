//! Asking parts, and tasks that stand behind what parts give.

use crate::engine::Engine;
use crate::ready::{block_at, is_plain_part, ready_value};
use crate::task::What;
use go_base::Memory;
use go_eval_plans::exit::Exit;
use go_eval_plans::parts::part;
use go_typed::checked::Checked;
use go_typed::node::TypedNode;
use go_values::Value;
use std::alloc::Global;

impl<'a> Engine<'a> {
    ghost use Rattle.std.specs.Prelude.{length, IfOk};
    ghost use Rattle.go_typed.specs.Packages.{PackageView};
    ghost use Rattle.go_typed.specs.Views.{Known};
    ghost use Rattle.go_values.specs.Views.{view};
    ghost use Rattle.go_meaning.specs.Doings.{at};
    ghost use Rattle.go_eval_machine.specs.Tasks.{IsFit, parts_of};
    ghost use Rattle.go_eval_machine.specs.Giving.{IsGiven};
    ghost use Rattle.go_eval_machine.specs.Engines.{Goes, asks_part, seeks_part, lays, lays_value, lays_find, lays_values, lays_finds, lays_given};

    /// Gives the value of a part that is ready, and nothing for one that isn't there; false where neither is so.
    ///
    /// # Errors
    ///
    /// Want of memory.
    pub fn give_ready(&mut self, node: &TypedNode, number: usize) -> Result<bool, Memory>
        ensures { IfOk result (λ ready. IsGiven (λ p n. (at (parts_of p n node.now) number).value) self.old ready self.new) }
    {
        let Some(asked) = part(&node.parts, number) else {
            return Ok(true);
        };
        let alloc = *self.values.allocator();
        match ready_value(alloc, &self.machine, asked)? {
            Some(value) => {
                self.give(value)?;
                Ok(true)
            }
            None => Ok(false),
        }
    }

    /// Asks a part for its value; one that is ready is given at once, and one that isn't there gives nothing.
    pub fn ask(&mut self, node: &'a TypedNode, number: usize) -> Result<(), Exit>
        ensures { (p : PackageView) → Known (length p.types.shapes) node.now → Goes p (asks_part p node.now number) self.old result self.new }
    {
        if self.give_ready(node, number)? {
            Ok(())
        } else {
            self.ask_later(node, number)
        }
    }

    /// Asks a part for its value by a task; one that isn't there gives nothing.
    pub fn ask_later(&mut self, node: &'a TypedNode, number: usize) -> Result<(), Exit>
        ensures { (p : PackageView) → Known (length p.types.shapes) node.now → Goes p (asks_part p node.now number) self.old result self.new }
    {
        match part(&node.parts, number) {
            Some(asked) => {
                self.push(asked, 0, What::Value)?;
                Ok(())
            }
            None => Ok(()),
        }
    }

    /// The same as `ask`, but the part begins at once, and not by a task.
    pub fn begin_part(
        &mut self,
        alloc: Global,
        checked: &Checked,
        node: &'a TypedNode,
        number: usize,
    ) -> Result<(), Exit>
        requires { Known (length checked.now.types.shapes) node.now }
        ensures { Goes checked.now (asks_part checked.now node.now number) self.old result self.new }
    {
        match part(&node.parts, number) {
            Some(asked) => self.start(alloc, checked, asked),
            None => Ok(()),
        }
    }

    /// The same as `begin_part`, but of a block the statements begin at once.
    pub fn ask_block(
        &mut self,
        alloc: Global,
        checked: &Checked,
        node: &'a TypedNode,
        number: usize,
    ) -> Result<(), Exit>
        requires { Known (length checked.now.types.shapes) node.now }
        ensures { Goes checked.now (asks_part checked.now node.now number) self.old result self.new }
    {
        match block_at(node, number) {
            Some(block) => self.begin_sequence(alloc, checked, block, 0),
            None => self.begin_part(alloc, checked, node, number),
        }
    }

    /// Asks a part for its operands as a place; a place without operands gives none, and what isn't there is no place.
    pub fn seek(&mut self, node: &'a TypedNode, number: usize) -> Result<(), Exit>
        ensures { (p : PackageView) → Known (length p.types.shapes) node.now → Goes p (seeks_part p node.now number) self.old result self.new }
    {
        if is_plain_part(node, number) {
            Ok(())
        } else {
            self.seek_later(node, number)
        }
    }

    /// Asks a part for its operands as a place by a task; what isn't there is none.
    pub fn seek_later(&mut self, node: &'a TypedNode, number: usize) -> Result<(), Exit>
        ensures { (p : PackageView) → Known (length p.types.shapes) node.now → Goes p (seeks_part p node.now number) self.old result self.new }
    {
        match part(&node.parts, number) {
            Some(asked) => {
                self.push(asked, 0, What::Find)?;
                Ok(())
            }
            None => Err(Exit::Undecided),
        }
    }

    /// Puts a task on top whose operands come behind all values.
    pub fn lay(&mut self, node: &'a TypedNode, what: What) -> Result<(), Exit>
        ensures { (p : PackageView) → IsFit (length p.types.shapes) node.now what → Goes p (lays p node.now what) self.old result self.new }
    {
        let base = self.top();
        self.push(node, base, what)?;
        Ok(())
    }

    /// The same, behind the value of a part.
    pub fn lay_value(&mut self, node: &'a TypedNode, what: What, number: usize) -> Result<(), Exit>
        ensures { (p : PackageView) → IsFit (length p.types.shapes) node.now what → Goes p (lays_value p node.now what number) self.old result self.new }
    {
        let base = self.top();
        self.push(node, base, what)?;
        self.ask(node, number)
    }

    /// The same, behind the value of a part that begins at once.
    pub fn lay_begun(
        &mut self,
        alloc: Global,
        checked: &Checked,
        node: &'a TypedNode,
        what: What,
        number: usize,
    ) -> Result<(), Exit>
        requires { IsFit (length checked.now.types.shapes) node.now what }
        ensures { Goes checked.now (lays_value checked.now node.now what number) self.old result self.new }
    {
        let base = self.top();
        self.push(node, base, what)?;
        self.begin_part(alloc, checked, node, number)
    }

    /// The same, behind a part that may be a block.
    pub fn lay_block(
        &mut self,
        alloc: Global,
        checked: &Checked,
        node: &'a TypedNode,
        what: What,
        number: usize,
    ) -> Result<(), Exit>
        requires { IsFit (length checked.now.types.shapes) node.now what }
        ensures { Goes checked.now (lays_value checked.now node.now what number) self.old result self.new }
    {
        let base = self.top();
        self.push(node, base, what)?;
        self.ask_block(alloc, checked, node, number)
    }

    /// The same, behind the operands of a part.
    pub fn lay_find(&mut self, node: &'a TypedNode, what: What, number: usize) -> Result<(), Exit>
        ensures { (p : PackageView) → IsFit (length p.types.shapes) node.now what → Goes p (lays_find p node.now what number) self.old result self.new }
    {
        let base = self.top();
        self.push(node, base, what)?;
        self.seek(node, number)
    }

    /// The same, behind the values of the first parts, up to `end`.
    pub fn lay_values(&mut self, node: &'a TypedNode, what: What, end: usize) -> Result<(), Exit>
        ensures { (p : PackageView) → IsFit (length p.types.shapes) node.now what → Goes p (lays_values p node.now what end) self.old result self.new }
    {
        let base = self.top();
        self.push(node, base, what)?;
        self.next_value(node, base, 0, end)
    }

    /// The same, behind the operands of the first parts, up to `end`.
    pub fn lay_finds(&mut self, node: &'a TypedNode, what: What, end: usize) -> Result<(), Exit>
        ensures { (p : PackageView) → IsFit (length p.types.shapes) node.now what → Goes p (lays_finds p node.now what end) self.old result self.new }
    {
        let base = self.top();
        self.push(node, base, what)?;
        self.next_find(node, base, 0, end)
    }

    /// The same, behind a value that is given.
    pub fn lay_given(&mut self, node: &'a TypedNode, what: What, value: Value) -> Result<(), Exit>
        ensures { (p : PackageView) → IsFit (length p.types.shapes) node.now what → Goes p (lays_given p node.now what (view value)) self.old result self.new }
    {
        let base = self.top();
        self.push(node, base, what)?;
        self.give(value)?;
        Ok(())
    }
}
