//! Steps of parts, one after the other, and of what is done to all that they give.

ghost use Rattle.std.specs.Prelude.{length};
ghost use Rattle.go_meaning.specs.Operations.{perform};
ghost use Rattle.go_values.specs.Views.{views};
ghost use Rattle.go_values.specs.Worlds.{world_view};
ghost use Rattle.go_eval_operations.specs.Performing.{IsPerformed};
ghost use Rattle.go_eval_machine.specs.Tasks.{KnownDeed, deed_view};

use crate::computing::computed_deed;
use crate::engine::Engine;
use crate::operands::above;
use crate::ready::first_sought;
use crate::start::count;
use crate::task::{Deed, What};
use go_base::Memory;
use go_eval_operations::perform;
use go_eval_plans::exit::Exit;
use go_eval_plans::places::operand;
use go_typed::checked::Checked;
use go_typed::node::TypedNode;
use go_values::{Panic, Stop, Value, World, element, field};
use std::alloc::Global;

/// What a deed at a node gives of its operands, and what it does to the world.
fn perform_deed(
    alloc: Global,
    checked: &Checked,
    node: &TypedNode,
    deed: Deed,
    operands: Vec<Value>,
    world: &mut World,
) -> Result<Option<Value>, Stop>
    requires { KnownDeed (length checked.now.types.shapes) deed }
    ensures { IsPerformed result (perform (deed_view checked.now node.now deed) (views operands.items) (world_view world.old)) (world_view world.old) (world_view world.new) }
{
    let nil = Value::NilFunction;
    match deed {
        Deed::Field(number) => {
            let value = field(alloc, number as usize, operand(&operands, 0, &nil))?;
            Ok(Some(value))
        }
        Deed::Element(length) => {
            let array = operand(&operands, 0, &nil);
            let value = element(alloc, length as usize, array, operand(&operands, 1, &nil))?;
            Ok(Some(value))
        }
        Deed::Cell => {
            let slice = operand(&operands, 0, &nil);
            let value = world.cell(alloc, slice, operand(&operands, 1, &nil))?;
            Ok(Some(value))
        }
        Deed::Planned(operation) => perform(
            alloc,
            checked.types(),
            &node.parts,
            operation,
            operands,
            world,
        ),
    }
}

impl<'a> Engine<'a> {
    ghost use Rattle.std.specs.Prelude.{◌≡◌, length, take, drop, IfOk};
    ghost use Rattle.go_typed.specs.declared.node.TypedNode as typed;
    ghost use Rattle.go_meaning.specs.Computations as meaning;
    ghost use Rattle.go_meaning.specs.Operations as operations;
    ghost use Rattle.go_values.specs.Deeds as deeds;
    ghost use Rattle.go_eval_machine.specs.declared.task.Deed as code;
    ghost use Rattle.go_typed.specs.Packages.{PackageView};
    ghost use Rattle.go_typed.specs.Views.{Known};
    ghost use Rattle.go_values.specs.Views.{views};
    ghost use Rattle.go_eval_machine.specs.declared.task.What.TheVariants as what;
    ghost use Rattle.go_eval_machine.specs.Tasks.{KnownDeed, deed_view};
    ghost use Rattle.go_eval_machine.specs.Engines.{Goes, works, lays_values};
    ghost use Rattle.go_eval_machine.specs.Giving.{GaveParts};

    /// The base, or the number of all values where there aren't so many.
    pub fn lower(&self, base: usize) -> usize
        ensures { result ≡ length (take base (views self.now.values.items)) }
    {
        let top = self.top();
        if base < top { base } else { top }
    }

    /// Gives the values of the parts from one on, up to `end`, as far as they are ready: the number of the first that isn't.
    ///
    /// # Errors
    ///
    /// Want of memory.
    fn give_parts(&mut self, node: &TypedNode, next: usize, end: usize) -> Result<usize, Memory>
        ensures { IfOk result (λ number. GaveParts node.now next end number self.old self.new) }
    {
        for number in next..end {
            if !self.give_ready(node, number)? {
                return Ok(number);
            }
        }
        Ok(end)
    }

    /// The values of the parts from one on.
    pub fn next_value(
        &mut self,
        node: &'a TypedNode,
        base: usize,
        next: usize,
        end: usize,
    ) -> Result<(), Exit>
        ensures { (p : PackageView) → Known (length p.types.shapes) node.now → Goes p (works p node.now base (what.Values next end)) self.old result self.new }
    {
        let low = self.lower(base);
        let number = self.give_parts(node, next, end)?;
        if number >= end {
            return Ok(());
        }
        if number >= count(node) {
            return Ok(());
        }
        let following = number + 1;
        self.push(
            node,
            low,
            What::Values {
                next: following,
                end,
            },
        )?;
        self.ask_later(node, number)
    }

    /// The operands of the parts from one on.
    pub fn next_find(
        &mut self,
        node: &'a TypedNode,
        base: usize,
        next: usize,
        end: usize,
    ) -> Result<(), Exit>
        ensures { (p : PackageView) → Known (length p.types.shapes) node.now → Goes p (works p node.now base (what.Finds next end)) self.old result self.new }
    {
        if next >= end {
            return Ok(());
        }
        let number = first_sought(node, next, end);
        if number >= end {
            return Ok(());
        }
        if number >= count(node) {
            return Ok(());
        }
        let low = self.lower(base);
        let following = number + 1;
        self.push(
            node,
            low,
            What::Finds {
                next: following,
                end,
            },
        )?;
        self.seek_later(node, number)
    }

    /// The tag of a switch, which is true where there is none (Go specification, "Expression switches").
    pub fn tag(
        &mut self,
        node: &'a TypedNode,
        base: usize,
        tag: bool,
        default: usize,
    ) -> Result<(), Exit>
        ensures { (p : PackageView) → Known (length p.types.shapes) node.now → Goes p (works p node.now base (what.Tag tag default)) self.old result self.new }
    {
        self.cut(base);
        if tag {
            self.lay_value(node, What::Clauses { next: 2, default }, 1)
        } else {
            self.lay_given(node, What::Clauses { next: 2, default }, Value::Truth(true))
        }
    }

    /// The values of an assignment (Go specification, "Assignment statements").
    pub fn assign(&mut self, node: &'a TypedNode, base: usize, targets: u32) -> Result<(), Exit>
        ensures { (p : PackageView) → Known (length p.types.shapes) node.now → Goes p (works p node.now base (what.Assign targets)) self.old result self.new }
    {
        let values = self.top();
        self.push(node, base, What::Store { targets, values })?;
        let next = targets as usize;
        let end = count(node);
        self.next_value(node, values, next, end)
    }

    /// A deed on the values of the first parts, up to `end`: at once where all of them are ready.
    pub fn perform_values(
        &mut self,
        alloc: Global,
        checked: &Checked,
        node: &'a TypedNode,
        deed: Deed,
        end: usize,
    ) -> Result<(), Exit>
        requires node { Known (length checked.now.types.shapes) node.now }
        requires deed { KnownDeed (length checked.now.types.shapes) deed }
        ensures { Goes checked.now (lays_values checked.now node.now (what.Perform deed) end) self.old result self.new }
    {
        let base = self.top();
        let number = self.give_parts(node, 0, end)?;
        if number >= end {
            return self.perform(alloc, checked, node, base, deed);
        }
        self.push(node, base, What::Perform(deed))?;
        self.next_value(node, base, number, end)
    }

    /// The deed on the operands.
    pub fn perform(
        &mut self,
        alloc: Global,
        checked: &Checked,
        node: &'a TypedNode,
        base: usize,
        deed: Deed,
    ) -> Result<(), Exit>
        requires { KnownDeed (length checked.now.types.shapes) deed }
        ensures { Goes checked.now (works checked.now node.now base (what.Perform deed)) self.old result self.new }
    {
        match computed_deed(deed, above(&self.values, base)) {
            Some(answer) => self.replace(base, answer),
            None => self.perform_taken(alloc, checked, node, base, deed),
        }
    }

    /// Puts what an operation gave in the place of its operands.
    fn replace(&mut self, base: usize, answer: Result<Value, Panic>) -> Result<(), Exit>
        ensures { (p : PackageView) (x : typed.TypedNode) (o : code.Deed) → ((w : meaning.World) → operations.perform (deed_view p x o) (drop base (views self.old.values.items)) w ≡ deeds.deed w answer) → Goes p (works p x base (what.Perform o)) self.old result self.new }
    {
        self.cut(base);
        match answer {
            Ok(value) => {
                self.give(value)?;
                Ok(())
            }
            Err(panic) => Err(Exit::Panic(panic)),
        }
    }

    /// The same, with the operands as a list.
    fn perform_taken(
        &mut self,
        alloc: Global,
        checked: &Checked,
        node: &'a TypedNode,
        base: usize,
        deed: Deed,
    ) -> Result<(), Exit>
        requires { KnownDeed (length checked.now.types.shapes) deed }
        ensures { Goes checked.now (works checked.now node.now base (what.Perform deed)) self.old result self.new }
    {
        let operands = self.take(alloc, base)?;
        let world = &mut self.machine.world;
        match perform_deed(alloc, checked, node, deed, operands, world)? {
            Some(value) => {
                self.give(value)?;
                Ok(())
            }
            None => Ok(()),
        }
    }
}
