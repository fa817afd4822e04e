//! Steps of statements and of operators that choose.

use crate::engine::Engine;
use crate::start::count;
use crate::task::What;
use go_eval_plans::exit::{Exit, Values};
use go_eval_plans::places::operand;
use go_typed::checked::Checked;
use go_typed::node::TypedNode;
use go_values::Value;
use std::alloc::Global;

impl<'a> Engine<'a> {
    ghost use Rattle.std.specs.Prelude.{◌≡◌, length, take};
    ghost use Rattle.go_typed.specs.Packages.{PackageView};
    ghost use Rattle.go_typed.specs.Views.{Known};
    ghost use Rattle.go_meaning.specs.Values.{is_true};
    ghost use Rattle.go_values.specs.Views.{views};
    ghost use Rattle.go_eval_machine.specs.declared.task.What.TheVariants as what;
    ghost use Rattle.go_eval_machine.specs.Tasks.{first_above};
    ghost use Rattle.go_eval_machine.specs.Engines.{Goes, IsKept, works, lays, falls};

    /// Whether the first operand is true; the operands are dropped.
    pub fn test(&mut self, base: usize) -> bool
        ensures holds { result ≡ is_true (first_above base (views self.old.values.items)) }
        ensures values { views self.new.values.items ≡ take base (views self.old.values.items) }
        ensures kept { IsKept self.old self.new }
    {
        let nil = Value::NilFunction;
        let holds = operand(&self.values, base, &nil).is_true();
        self.cut(base);
        holds
    }

    /// The right side of `&&` (Go specification, "Logical operators").
    pub fn both(&mut self, node: &'a TypedNode, base: usize) -> Result<(), Exit>
        ensures { (p : PackageView) → Known (length p.types.shapes) node.now → Goes p (works p node.now base what.Both) self.old result self.new }
    {
        if self.test(base) {
            self.ask(node, 1)
        } else {
            self.give(Value::Truth(false))?;
            Ok(())
        }
    }

    /// The right side of `||` (Go specification, "Logical operators").
    pub fn either(&mut self, node: &'a TypedNode, base: usize) -> Result<(), Exit>
        ensures { (p : PackageView) → Known (length p.types.shapes) node.now → Goes p (works p node.now base what.Either) self.old result self.new }
    {
        if self.test(base) {
            self.give(Value::Truth(true))?;
            Ok(())
        } else {
            self.ask(node, 1)
        }
    }

    /// The condition of an `if` (Go specification, "If statements").
    pub fn condition(
        &mut self,
        alloc: Global,
        checked: &Checked,
        node: &'a TypedNode,
        base: usize,
    ) -> Result<(), Exit>
        requires { Known (length checked.now.types.shapes) node.now }
        ensures { Goes checked.now (works checked.now node.now base what.Condition) self.old result self.new }
    {
        self.cut(base);
        self.lay_begun(alloc, checked, node, What::Branch, 1)
    }

    /// The branch of an `if` (Go specification, "If statements").
    pub fn branch(
        &mut self,
        alloc: Global,
        checked: &Checked,
        node: &'a TypedNode,
        base: usize,
    ) -> Result<(), Exit>
        requires { Known (length checked.now.types.shapes) node.now }
        ensures { Goes checked.now (works checked.now node.now base what.Branch) self.old result self.new }
    {
        if self.test(base) {
            self.ask_block(alloc, checked, node, 2)
        } else {
            self.ask_block(alloc, checked, node, 3)
        }
    }

    /// The statements from one on (Go specification, "Blocks").
    pub fn sequence(
        &mut self,
        alloc: Global,
        checked: &Checked,
        node: &'a TypedNode,
        base: usize,
        next: usize,
    ) -> Result<(), Exit>
        requires { Known (length checked.now.types.shapes) node.now }
        ensures { Goes checked.now (works checked.now node.now base (what.Sequence next)) self.old result self.new }
    {
        self.cut(base);
        if next < count(node) {
            self.lay_begun(
                alloc,
                checked,
                node,
                What::Sequence { next: next + 1 },
                next,
            )
        } else {
            Ok(())
        }
    }

    /// Begins with the statements from one on, behind all values (Go specification, "Blocks").
    pub fn begin_sequence(
        &mut self,
        alloc: Global,
        checked: &Checked,
        node: &'a TypedNode,
        next: usize,
    ) -> Result<(), Exit>
        requires { Known (length checked.now.types.shapes) node.now }
        ensures { Goes checked.now (lays checked.now node.now (what.Sequence next)) self.old result self.new }
    {
        let base = self.top();
        self.sequence(alloc, checked, node, base, next)
    }

    /// The clauses from one on, as far as each falls through (Go specification, "Fallthrough statements").
    pub fn fall(&mut self, node: &'a TypedNode, base: usize, next: usize) -> Result<(), Exit>
        ensures { (p : PackageView) → Known (length p.types.shapes) node.now → Goes p (falls p node.now base next) self.old result self.new }
    {
        self.cut(base);
        if next < count(node) {
            self.lay_value(node, What::Fall { next: next + 1 }, next)
        } else {
            Ok(())
        }
    }

    /// The end of a body (Go specification, "Return statements").
    pub fn ends_body(&mut self, alloc: Global, node: &'a TypedNode, base: usize) -> Result<(), Exit>
        ensures { (p : PackageView) → Goes p (works p node.now base what.Return) self.old result self.new }
    {
        let results = self.take(alloc, base)?;
        Err(Exit::Return(Values::Many(results)))
    }

    /// The condition of a turn of a loop (Go specification, "For statements with for clause").
    pub fn turn(
        &mut self,
        alloc: Global,
        checked: &Checked,
        node: &'a TypedNode,
        base: usize,
        condition: bool,
    ) -> Result<(), Exit>
        requires { Known (length checked.now.types.shapes) node.now }
        ensures { Goes checked.now (works checked.now node.now base (what.Turn condition)) self.old result self.new }
    {
        self.cut(base);
        if condition {
            self.lay_begun(alloc, checked, node, What::Block, 1)
        } else {
            self.lay_given(node, What::Block, Value::Truth(true))
        }
    }

    /// Begins with a turn of a loop, behind all values (Go specification, "For statements with for clause").
    pub fn begin_turn(
        &mut self,
        alloc: Global,
        checked: &Checked,
        node: &'a TypedNode,
        condition: bool,
    ) -> Result<(), Exit>
        requires { Known (length checked.now.types.shapes) node.now }
        ensures { Goes checked.now (lays checked.now node.now (what.Turn condition)) self.old result self.new }
    {
        let base = self.top();
        self.turn(alloc, checked, node, base, condition)
    }

    /// The block of a turn, for which a turn is spent (Go specification, "For statements with for clause").
    pub fn block(
        &mut self,
        alloc: Global,
        checked: &Checked,
        node: &'a TypedNode,
        base: usize,
    ) -> Result<(), Exit>
        requires { Known (length checked.now.types.shapes) node.now }
        ensures { Goes checked.now (works checked.now node.now base what.Block) self.old result self.new }
    {
        if self.test(base) {
            self.machine.spend()?;
            self.lay_block(alloc, checked, node, What::Round, 3)
        } else {
            Ok(())
        }
    }

    /// What stands behind the block of a turn (Go specification, "For statements with for clause").
    pub fn round(
        &mut self,
        alloc: Global,
        checked: &Checked,
        node: &'a TypedNode,
        base: usize,
    ) -> Result<(), Exit>
        requires { Known (length checked.now.types.shapes) node.now }
        ensures { Goes checked.now (works checked.now node.now base what.Round) self.old result self.new }
    {
        self.cut(base);
        self.lay_begun(alloc, checked, node, What::Again, 2)
    }
}
