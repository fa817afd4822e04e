//! Ways out through tasks: those of `break`, `continue`, `fallthrough`, `return` and panics.

ghost use Rattle.std.specs.Prelude.{length};
ghost use Rattle.go_typed.specs.Packages.{PackageView};
ghost use Rattle.go_typed.specs.Views.{Known};
ghost use Rattle.go_eval_machine.specs.declared.task.What.TheVariants as what;
ghost use Rattle.go_eval_machine.specs.Tasks.{IsFit};
ghost use Rattle.go_eval_machine.specs.Engines.{Goes};
ghost use Rattle.go_eval.specs.Outs.{outs};

use crate::leave::leave_by;
use crate::ranges::item;
use go_eval_machine::engine::Engine;
use go_eval_machine::task::{Iteration, What};
use go_eval_plans::exit::Exit;
use go_typed::node::TypedNode;
use std::alloc::Global;

/// The way out of the block of a loop (Go specification, "Break statements", "Continue statements").
fn out_of_block<'a>(
    engine: &mut Engine<'a>,
    node: &'a TypedNode,
    base: usize,
    exit: Exit,
) -> Result<(), Exit>
    ensures { (p : PackageView) → Known (length p.types.shapes) node.now → Goes p (outs p node.now base what.Round exit) engine.old result engine.new }
{
    match exit {
        Exit::Continue => {
            engine.push(node, base, What::Round)?;
            Ok(())
        }
        Exit::Break => {
            engine.cut(base);
            Ok(())
        }
        other => {
            engine.cut(base);
            Err(other)
        }
    }
}

/// The way out of the block of a loop over items (Go specification, "Break statements", "Continue statements").
fn out_of_items<'a>(
    engine: &mut Engine<'a>,
    node: &'a TypedNode,
    base: usize,
    iteration: Box<Iteration>,
    exit: Exit,
) -> Result<(), Exit>
    ensures { (p : PackageView) → IsFit (length p.types.shapes) node.now (what.ItemRound iteration) → Goes p (outs p node.now base (what.ItemRound iteration) exit) engine.old result engine.new }
{
    match exit {
        Exit::Continue => item(engine, node, base, iteration),
        Exit::Break => {
            engine.cut(base);
            Ok(())
        }
        other => {
            engine.cut(base);
            Err(other)
        }
    }
}

/// The way out of a clause of a switch (Go specification, "Break statements", "Fallthrough statements").
fn out_of_clause<'a>(
    engine: &mut Engine<'a>,
    node: &'a TypedNode,
    base: usize,
    next: usize,
    exit: Exit,
) -> Result<(), Exit>
    ensures { (p : PackageView) → Known (length p.types.shapes) node.now → Goes p (outs p node.now base (what.Fall next) exit) engine.old result engine.new }
{
    match exit {
        Exit::Fallthrough => engine.fall(node, base, next),
        Exit::Break => {
            engine.cut(base);
            Ok(())
        }
        other => {
            engine.cut(base);
            Err(other)
        }
    }
}

/// Goes out through a task.
pub fn out<'a>(
    engine: &mut Engine<'a>,
    alloc: Global,
    node: &'a TypedNode,
    base: usize,
    what: What,
    exit: Exit,
) -> Result<(), Exit>
    ensures { (p : PackageView) → IsFit (length p.types.shapes) node.now what → Goes p (outs p node.now base what exit) engine.old result engine.new }
{
    match what {
        What::Value => Err(exit),
        What::Find => Err(exit),
        What::Round => out_of_block(engine, node, base, exit),
        What::ItemRound(iteration) => out_of_items(engine, node, base, iteration, exit),
        What::Fall { next } => out_of_clause(engine, node, base, next, exit),
        What::Leave(frame) => leave_by(engine, alloc, base, frame, exit),
        _ => {
            engine.cut(base);
            Err(exit)
        }
    }
}
