//! Further turns of loops.

ghost use Rattle.std.specs.Prelude.{◌≡◌};
ghost use Rattle.go_typed.specs.declared.node.TypedNode.TheViews.{out-TypedNode};
ghost use Rattle.go_eval_plans.specs.Views.{is_for};

use crate::engine::Engine;
use crate::task::What;
use go_eval_plans::exit::Exit;
use go_eval_plans::parts::is_there;
use go_typed::checked::Checked;
use go_typed::form::Form;
use go_typed::node::TypedNode;
use std::alloc::Global;

/// Whether a node is a loop without a range clause.
pub fn is_loop(node: &TypedNode) -> bool
    ensures { result ≡ is_for (out-TypedNode node.now).form }
{
    matches!(node.form, Form::For)
}

impl<'a> Engine<'a> {
    ghost use Rattle.std.specs.Prelude.{length};
    ghost use Rattle.go_typed.specs.Views.{Known};
    ghost use Rattle.go_eval_machine.specs.declared.task.What.TheVariants as what;
    ghost use Rattle.go_eval_machine.specs.Engines.{Goes, works};

    /// The next turn of a loop, which has no first statement (Go specification, "For statements with for clause").
    pub fn again(
        &mut self,
        alloc: Global,
        checked: &Checked,
        node: &'a TypedNode,
        base: usize,
    ) -> Result<(), Exit>
        requires { Known (length checked.now.types.shapes) node.now }
        ensures { Goes checked.now (works checked.now node.now base what.Again) self.old result self.new }
    {
        self.cut(base);
        if is_loop(node) {
            let condition = is_there(&node.parts, 1);
            self.begin_turn(alloc, checked, node, condition)
        } else {
            self.push(node, 0, What::Value)?;
            Ok(())
        }
    }
}
