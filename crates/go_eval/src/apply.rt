//! Calls (Go specification, "Calls").

ghost use Rattle.std.specs.Prelude.{◌≡◌, IfSome, IsNone, drop, length, true};
ghost use Rattle.std.specs.Option.{option_map};
ghost use Rattle.go_typed.specs.declared.node.TypedNode.{TypedNode};
ghost use Rattle.go_typed.specs.Packages.{PackageView};
ghost use Rattle.go_typed.specs.Views.{Known};
ghost use Rattle.go_values.specs.Views.{views};
ghost use Rattle.go_values.specs.declared.panic.Panic.TheVariants as panic;
ghost use Rattle.go_eval_plans.specs.declared.exit.Exit.TheVariants as exit;
ghost use Rattle.go_eval_machine.specs.declared.task.What.TheVariants as what;
ghost use Rattle.go_eval_machine.specs.Engines.{Goes, operates, works};
ghost use Rattle.go_eval_machine.specs.Tasks.{first_above};
ghost use Rattle.go_types.specs.Tables.{Table};
ghost use Rattle.go_meaning.specs.Values.{Function};
ghost use Rattle.go_meaning.specs.Meaning.{has_body};
ghost use Rattle.go_meaning.specs.Operations.{ReadByte};
ghost use Rattle.go_eval_plans.specs.Programs.{code_of};
ghost use Rattle.go_eval.specs.Called.{IsKnownBody, enters, calls_it, function_in};

use go_eval_machine::engine::Engine;
use go_eval_machine::operands::above;
use go_eval_machine::task::What;
use go_eval_plans::calls::{callee, frame_of, has_body};
use go_eval_plans::exit::Exit;
use go_typed::checked::Checked;
use go_typed::func::TypedFunc;
use go_typed::node::TypedNode;
use go_values::Value;
use std::alloc::Global;

/// The call of the first operand with the others; of a nil function it is a panic.
pub fn apply<'a>(
    engine: &mut Engine<'a>,
    alloc: Global,
    checked: &'a Checked,
    node: &'a TypedNode,
    base: usize,
) -> Result<(), Exit>
    ensures goes { Goes checked.now (works checked.now node.now base what.Apply) engine.old result engine.new }
    ensures nil { function_in (first_above base (views engine.old.values.items)) ≡ None → result ≡ Err (exit.Panic panic.NilCall) }
{
    match callee(above(&engine.values, base)) {
        Ok(number) => apply_function(engine, alloc, checked, base, number),
        Err(exit) => {
            engine.cut(base);
            Err(exit)
        }
    }
}

/// The call of the function of this number, which the first operand is, with the others.
fn apply_function<'a>(
    engine: &mut Engine<'a>,
    alloc: Global,
    checked: &'a Checked,
    base: usize,
    number: u32,
) -> Result<(), Exit>
    ensures { (x : TypedNode) → first_above base (views engine.old.values.items) ≡ Function number → Goes checked.now (works checked.now x base what.Apply) engine.old result engine.new }
{
    let operands = engine.take(alloc, base)?;
    let _types = checked.types();
    call(engine, alloc, checked.function(number), operands)
}

/// The call of a function with the operands behind the first one; where there is no such function it is undecided.
pub fn call<'a>(
    engine: &mut Engine<'a>,
    alloc: Global,
    function: Option<&'a TypedFunc>,
    operands: Vec<Value>,
) -> Result<(), Exit>
    ensures goes { (p : PackageView) → IsKnownBody p (option_map (λ f. f.now) function.entry) → Goes p (calls_it p (option_map (λ f. f.now) function.entry) (drop 1 (views operands.items))) engine.old result engine.new }
    ensures none { IsNone function.entry → result ≡ Err exit.Undecided }
    ensures spent { engine.old.machine.turns ≡ 0 → result ≡ Err exit.Undecided }
    ensures deep { engine.old.depth ≡ 0 → IfSome function.entry (λ f. (t : Table) → has_body (code_of t f.now) ≡ true → result ≡ Err exit.Undecided) }
{
    match function {
        Some(function) => call_function(engine, alloc, function, operands),
        None => Err(Exit::Undecided),
    }
}

/// The call of this function, for which a turn is spent; one without a body gives the next byte of the input.
fn call_function<'a>(
    engine: &mut Engine<'a>,
    alloc: Global,
    function: &'a TypedFunc,
    operands: Vec<Value>,
) -> Result<(), Exit>
    ensures goes { (p : PackageView) → Known (length p.types.shapes) function.now.root → Goes p (calls_it p (Some function.now) (drop 1 (views operands.items))) engine.old result engine.new }
    ensures spent { engine.old.machine.turns ≡ 0 → result ≡ Err exit.Undecided }
    ensures deep { (t : Table) → has_body (code_of t function.now) ≡ true → engine.old.depth ≡ 0 → result ≡ Err exit.Undecided }
{
    engine.machine.spend()?;
    if has_body(function) {
        return enter(engine, alloc, function, operands);
    }
    read_byte(engine)
}

/// Gives the next byte of the input.
fn read_byte(engine: &mut Engine<'_>) -> Result<(), Exit>
    ensures { (p : PackageView) → Goes p (operates ReadByte) engine.old result engine.new }
{
    let byte = engine.machine.world.read_byte();
    engine.give(byte)?;
    Ok(())
}

/// Begins with the body of a function, in a frame of its own and one deeper; where no depth is left it is undecided.
fn enter<'a>(
    engine: &mut Engine<'a>,
    alloc: Global,
    function: &'a TypedFunc,
    operands: Vec<Value>,
) -> Result<(), Exit>
    ensures goes { (p : PackageView) → Known (length p.types.shapes) function.now.root → Goes p (enters p function.now (drop 1 (views operands.items))) engine.old result engine.new }
    ensures deep { engine.old.depth ≡ 0 → result ≡ Err exit.Undecided }
{
    if engine.depth == 0 {
        return Err(Exit::Undecided);
    }
    engine.depth -= 1;
    let Ok(frame) = frame_of(alloc, function, operands) else {
        return Err(Exit::Memory);
    };
    let outer = engine.machine.enter(frame);
    let base = engine.top();
    engine.push(function.root(), base, What::Leave(outer))?;
    engine.push(function.root(), 0, What::Value)?;
    Ok(())
}
