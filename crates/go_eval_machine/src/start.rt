//! The values of nodes: what each plan begins with.

ghost use Rattle.std.specs.Prelude.{◌≡◌, length};
ghost use Rattle.go_typed.specs.declared.node.TypedNode.TheViews.{out-TypedNode};

use crate::engine::Engine;
use crate::ready::constant_of;
use crate::task::{Deed, What};
use go_eval_operations::zero_value;
use go_eval_plans::exit::Exit;
use go_eval_plans::form_plan::plan_of;
use go_eval_plans::places::operand;
use go_eval_plans::plan::{Items, Plan};
use go_typed::checked::Checked;
use go_typed::node::TypedNode;
use go_types::TypeId;
use go_values::Value;
use std::alloc::Global;

/// How many parts a node has.
pub fn count(node: &TypedNode) -> usize
    ensures { result ≡ length (out-TypedNode node.now).parts.items }
{
    node.parts.as_slice().len()
}

impl<'a> Engine<'a> {
    ghost use Rattle.std.specs.Prelude.{◌<◌, IfSome, length};
    ghost use Rattle.go_types.specs.Tables.{type_of, rights_of};
    ghost use Rattle.go_typed.specs.Packages.{PackageView};
    ghost use Rattle.go_typed.specs.Views.{Known, sort_seen};
    ghost use Rattle.go_meaning.specs.Operations.{ReadVariable};
    ghost use Rattle.go_meaning.specs.Planning.{zero_in};
    ghost use Rattle.go_meaning.specs.Values as meant;
    ghost use Rattle.go_typed.specs.declared.node.TypedNode.TheViews.{out-TypedNode};
    ghost use Rattle.go_eval_plans.specs.declared.plan.Plan.TheVariants as plan;
    ghost use Rattle.go_eval_plans.specs.Known.{KnownPlan};
    ghost use Rattle.go_eval_plans.specs.Views.{constant_in, type_in};
    ghost use Rattle.go_eval_machine.specs.Engines.{Goes, asks, begins, gives, operates, reads};

    /// Gives the constant that a node is.
    fn constant(&mut self, node: &TypedNode) -> Result<(), Exit>
        ensures { (p : PackageView) → Goes p (gives (constant_in (sort_seen p.types (out-TypedNode node.now).sort))) self.old result self.new }
    {
        self.give(constant_of(node)?)?;
        Ok(())
    }

    /// Gives the zero value of a type.
    fn zero(&mut self, alloc: Global, checked: &Checked, ty: Option<TypeId>) -> Result<(), Exit>
        requires { IfSome ty (λ a. a < length checked.now.types.shapes) }
        ensures { Goes checked.now (gives (meant.zero_value (zero_in (rights_of checked.now.types) (type_in (type_of checked.now.types.shapes) ty)))) self.old result self.new }
    {
        let value = zero_value(alloc, checked.types(), ty)?;
        self.give(value)?;
        Ok(())
    }

    /// Gives a copy of a local.
    fn local(&mut self, alloc: Global, number: u32) -> Result<(), Exit>
        ensures { (p : PackageView) → Goes p (reads number) self.old result self.new }
    {
        let nil = Value::NilFunction;
        let value = operand(&self.machine.frame, number as usize, &nil).copy_of(alloc)?;
        self.give(value)?;
        Ok(())
    }

    /// Gives a copy of a variable of the package.
    fn variable(&mut self, alloc: Global, number: u32) -> Result<(), Exit>
        ensures { (p : PackageView) → Goes p (operates (ReadVariable number)) self.old result self.new }
    {
        let value = self.machine.world.read_variable(alloc, number as usize)?;
        self.give(value)?;
        Ok(())
    }

    /// Puts the items of a range clause behind its operand, which isn't evaluated where the items are fixed.
    fn items(&mut self, node: &'a TypedNode, targets: u32, items: Items) -> Result<(), Exit>
        ensures { (p : PackageView) → Known (length p.types.shapes) node.now → Goes p (begins p node.now (plan.Iterate targets items)) self.old result self.new }
    {
        match items {
            Items::Fixed(_) => {
                self.lay_given(node, What::Items { targets, items }, Value::NilFunction)
            }
            Items::Elements => {
                self.lay_value(node, What::Items { targets, items }, targets as usize)
            }
            Items::Cells => self.lay_value(node, What::Items { targets, items }, targets as usize),
            Items::Runes => self.lay_value(node, What::Items { targets, items }, targets as usize),
            Items::Numbers => {
                self.lay_value(node, What::Items { targets, items }, targets as usize)
            }
        }
    }

    /// Begins with the value of a node that has this plan.
    fn begin(
        &mut self,
        alloc: Global,
        checked: &Checked,
        node: &'a TypedNode,
        course: Plan,
    ) -> Result<(), Exit>
        requires node { Known (length checked.now.types.shapes) node.now }
        requires plan { KnownPlan (length checked.now.types.shapes) course }
        ensures { Goes checked.now (begins checked.now node.now course) self.old result self.new }
    {
        match course {
            Plan::Constant => self.constant(node),
            Plan::Function(number) => {
                self.give(Value::Function(number))?;
                Ok(())
            }
            Plan::Nil(ty) => self.zero(alloc, checked, ty),
            Plan::Local(number) => self.local(alloc, number),
            Plan::Variable(number) => self.variable(alloc, number),
            Plan::Declare(_) => Ok(()),
            Plan::Ignore => Ok(()),
            Plan::Skip => Ok(()),
            Plan::Inner => self.ask(node, 0),
            Plan::FieldOf(field) => self.lay_value(node, What::Perform(Deed::Field(field)), 0),
            Plan::ElementOf(length) => {
                self.perform_values(alloc, checked, node, Deed::Element(length), 2)
            }
            Plan::CellOf => self.perform_values(alloc, checked, node, Deed::Cell, 2),
            Plan::Perform(operation) => {
                let end = count(node);
                self.perform_values(alloc, checked, node, Deed::Planned(operation), end)
            }
            Plan::Both => self.lay_value(node, What::Both, 0),
            Plan::Either => self.lay_value(node, What::Either, 0),
            Plan::Apply => {
                let end = count(node);
                self.lay_values(node, What::Apply, end)
            }
            Plan::StepBy(operation) => self.lay_find(node, What::Step(operation), 0),
            Plan::OperateBy(operation) => self.lay_find(node, What::Load(operation), 0),
            Plan::AssignTo(targets) => {
                self.lay_finds(node, What::Assign(targets), targets as usize)
            }
            Plan::ZeroTo(targets, ty) => {
                self.lay_finds(node, What::Zero(targets, ty), targets as usize)
            }
            Plan::Returns => {
                let end = count(node);
                self.lay_values(node, What::Return, end)
            }
            Plan::Breaks => Err(Exit::Break),
            Plan::Continues => Err(Exit::Continue),
            Plan::Falls => Err(Exit::Fallthrough),
            Plan::Sequence => self.lay(node, What::Sequence { next: 0 }),
            Plan::Branch => self.lay_value(node, What::Condition, 0),
            Plan::Select { tag, default } => self.lay_value(node, What::Tag { tag, default }, 0),
            Plan::CaseOf(values) => {
                let next = values as usize;
                self.lay(node, What::Sequence { next })
            }
            Plan::Otherwise => self.lay(node, What::Sequence { next: 0 }),
            Plan::Iterate(targets, items) => self.items(node, targets, items),
            Plan::Loop(condition) => self.lay_value(node, What::Turn(condition), 0),
        }
    }

    /// Begins with the value of a node.
    pub fn start(
        &mut self,
        alloc: Global,
        checked: &Checked,
        node: &'a TypedNode,
    ) -> Result<(), Exit>
        requires { Known (length checked.now.types.shapes) node.now }
        ensures { Goes checked.now (asks checked.now node.now) self.old result self.new }
    {
        let plan = plan_of(checked.types(), node.form, &node.sort, &node.parts);
        self.begin(alloc, checked, node, plan)
    }
}
