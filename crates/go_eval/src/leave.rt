//! The ends of bodies (Go specification, "Return statements").

ghost use Rattle.std.specs.Prelude.{◌≡◌};
ghost use Rattle.go_typed.specs.declared.node.TypedNode.{TypedNode};
ghost use Rattle.go_typed.specs.Packages.{PackageView};
ghost use Rattle.go_eval_machine.specs.declared.task.What.TheVariants as what;
ghost use Rattle.go_eval_machine.specs.Engines.{Goes, works};
ghost use Rattle.go_eval_plans.specs.declared.exit.Exit.TheVariants as exit;
ghost use Rattle.go_eval.specs.Outs.{IsLeftBody, outs};

use go_eval_machine::engine::Engine;
use go_eval_plans::exit::{Exit, Values};
use go_values::Value;
use std::alloc::Global;

/// Drops the values behind the base, and goes back into the frame of the caller, which is one less deep.
fn back(engine: &mut Engine<'_>, base: usize, frame: Vec<Value>) -> Result<(), Exit>
    ensures { IsLeftBody base frame engine.old result engine.new }
{
    match engine.depth.checked_add(1) {
        Some(depth) => {
            engine.cut(base);
            engine.depth = depth;
            engine.machine.frame = frame;
            Ok(())
        }
        None => Err(Exit::Memory),
    }
}

/// The end of a body without a `return`.
pub fn leave(engine: &mut Engine<'_>, base: usize, frame: Vec<Value>) -> Result<(), Exit>
    ensures { (p : PackageView) (x : TypedNode) → Goes p (works p x base (what.Leave frame)) engine.old result engine.new }
{
    back(engine, base, frame)
}

/// The way out of a body: a `return` ends there with its values, a panic doesn't.
pub fn leave_by(
    engine: &mut Engine<'_>,
    alloc: Global,
    base: usize,
    frame: Vec<Value>,
    exit: Exit,
) -> Result<(), Exit>
    ensures { (p : PackageView) (x : TypedNode) → Goes p (outs p x base (what.Leave frame) exit) engine.old result engine.new }
{
    match exit {
        Exit::Return(values) => return_values(engine, alloc, base, frame, values),
        Exit::Break => leave(engine, base, frame),
        Exit::Continue => leave(engine, base, frame),
        Exit::Fallthrough => leave(engine, base, frame),
        Exit::Panic(panic) => {
            back(engine, base, frame)?;
            Err(Exit::Panic(panic))
        }
        Exit::Undecided => Err(Exit::Undecided),
        Exit::Memory => Err(Exit::Memory),
    }
}

/// The end of a body by a `return` with these values.
fn return_values(
    engine: &mut Engine<'_>,
    alloc: Global,
    base: usize,
    frame: Vec<Value>,
    values: Values,
) -> Result<(), Exit>
    ensures { (p : PackageView) (x : TypedNode) → Goes p (outs p x base (what.Leave frame) (exit.Return values)) engine.old result engine.new }
{
    back(engine, base, frame)?;
    let Ok(mut results) = values.into_list(alloc) else {
        return Err(Exit::Memory);
    };
    engine.values.append(&mut results)?;
    Ok(())
}
