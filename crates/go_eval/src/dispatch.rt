//! Which step a task is.

ghost use Rattle.std.specs.Prelude.{length};
ghost use Rattle.go_eval_machine.specs.Tasks.{IsFit};
ghost use Rattle.go_eval_machine.specs.Engines.{Goes, works};

use crate::apply::apply;
use crate::leave::leave;
use crate::ranges::{item, item_to, items};
use crate::switches::{clause, clauses, match_tag, matches};
use go_eval_machine::engine::Engine;
use go_eval_machine::find::{find, found, index, tested};
use go_eval_machine::operate::{operate, read, step};
use go_eval_machine::store::{store_values, store_zeros};
use go_eval_machine::task::What;
use go_eval_plans::exit::Exit;
use go_typed::checked::Checked;
use go_typed::node::TypedNode;
use std::alloc::Global;

/// Does a task.
pub fn dispatch<'a>(
    engine: &mut Engine<'a>,
    alloc: Global,
    checked: &'a Checked,
    node: &'a TypedNode,
    base: usize,
    what: What,
) -> Result<(), Exit>
    requires { IsFit (length checked.now.types.shapes) node.now what }
    ensures { Goes checked.now (works checked.now node.now base what) engine.old result engine.new }
{
    match what {
        What::Value => engine.start(alloc, checked, node),
        What::Find => find(engine, checked, node),
        What::Values { next, end } => engine.next_value(node, base, next, end),
        What::Finds { next, end } => engine.next_find(node, base, next, end),
        What::Perform(deed) => engine.perform(alloc, checked, node, base, deed),
        What::Both => engine.both(node, base),
        What::Either => engine.either(node, base),
        What::Apply => apply(engine, alloc, checked, node, base),
        What::Return => engine.ends_body(alloc, node, base),
        What::Step(operation) => step(engine, alloc, checked, node, base, operation),
        What::Load(operation) => read(engine, alloc, checked, node, base, operation),
        What::Operate { operation, value } => {
            operate(engine, alloc, checked, node, base, operation, value)
        }
        What::Assign(targets) => engine.assign(node, base, targets),
        What::Zero(targets, ty) => store_zeros(engine, alloc, checked, node, base, targets, ty),
        What::Store { targets, values } => {
            store_values(engine, alloc, checked, node, base, targets, values)
        }
        What::Sequence { next } => engine.sequence(alloc, checked, node, base, next),
        What::Condition => engine.condition(alloc, checked, node, base),
        What::Branch => engine.branch(alloc, checked, node, base),
        What::Tag { tag, default } => engine.tag(node, base, tag, default),
        What::Clauses { next, default } => clauses(engine, checked, node, base, next, default),
        What::Clause {
            next,
            default,
            test,
        } => clause(engine, checked, node, base, next, default, test),
        What::Matches { next, end, tag } => matches(engine, node, base, next, end, tag),
        What::Match { next, end, tag } => match_tag(engine, node, base, next, end, tag),
        What::Fall { .. } => {
            engine.cut(base);
            Ok(())
        }
        What::Turn(condition) => engine.turn(alloc, checked, node, base, condition),
        What::Block => engine.block(alloc, checked, node, base),
        What::Round => engine.round(alloc, checked, node, base),
        What::Again => engine.again(alloc, checked, node, base),
        What::Index => index(engine, checked, node, base),
        What::Tested { end } => tested(engine, node, base, end),
        What::Behind { index } => found(engine, alloc, node, base, index),
        What::Items {
            targets,
            items: kind,
        } => items(engine, alloc, node, base, targets, kind),
        What::Item(iteration) => item(engine, node, base, iteration),
        What::ItemTo(iteration) => item_to(engine, alloc, checked, node, base, iteration),
        What::ItemRound(iteration) => item(engine, node, base, iteration),
        What::Leave(frame) => leave(engine, base, frame),
    }
}
