//! The operands of places.

ghost use Rattle.std.specs.Prelude.{◌≡◌, [], ◌∷◌, length};
ghost use Rattle.go_meaning.specs.Operations.{InArray, InSlice, perform};
ghost use Rattle.go_meaning.specs.Values.{nth};
ghost use Rattle.go_typed.specs.Packages.{PackageView};
ghost use Rattle.go_typed.specs.Views.{Known};
ghost use Rattle.go_values.specs.Views.{views};
ghost use Rattle.go_eval_machine.specs.declared.task.What.TheVariants as what;
ghost use Rattle.go_eval_machine.specs.Engines.{Goes, seeks, works};
ghost use Rattle.go_eval_machine.specs.Tests.{IsTest, tests};

use crate::engine::Engine;
use crate::operands::above;
use crate::task::What;
use go_eval_plans::calls::take_at;
use go_eval_plans::exit::Exit;
use go_eval_plans::parts::part;
use go_eval_plans::places::{Place, as_place, operand};
use go_typed::checked::Checked;
use go_typed::node::TypedNode;
use go_values::{Value, length, place_of};
use std::alloc::Global;

/// Finds the operands of the place that a node is.
pub fn find<'a>(engine: &mut Engine<'a>, checked: &Checked, node: &'a TypedNode) -> Result<(), Exit>
    requires { Known (length checked.now.types.shapes) node.now }
    ensures { Goes checked.now (seeks checked.now node.now) engine.old result engine.new }
{
    match as_place(checked, node) {
        Place::Local(_) => Ok(()),
        Place::Name(_) => Ok(()),
        Place::Variable(_) => Ok(()),
        Place::Blank => Ok(()),
        Place::Inner => engine.seek(node, 0),
        Place::Field(_) => engine.seek(node, 0),
        Place::Element(_) => engine.lay_find(node, What::Index, 0),
        Place::Cell => {
            let base = engine.top();
            engine.push(node, base, What::Values { next: 0, end: 2 })?;
            Ok(())
        }
        Place::Case(_) => Err(Exit::Undecided),
        Place::Otherwise => Err(Exit::Undecided),
        Place::Nothing => Err(Exit::Undecided),
    }
}

/// Tests the index of an element of an array of this length, which is the first operand.
fn test_array(operands: &[Value], length: u32) -> Result<(), Exit>
    ensures { IsTest result (perform (InArray length) (nth (views operands.now) 0 ∷ [])) }
{
    let nil = Value::NilFunction;
    place_of(operand(operands, 0, &nil), length as usize)?;
    Ok(())
}

/// Tests the index of an element of a slice: the slice is the first operand, the index the second one.
fn test_slice(operands: &[Value]) -> Result<(), Exit>
    ensures { IsTest result (perform InSlice (nth (views operands.now) 0 ∷ nth (views operands.now) 1 ∷ [])) }
{
    let nil = Value::NilFunction;
    let slice = operand(operands, 0, &nil);
    place_of(operand(operands, 1, &nil), length(slice))?;
    Ok(())
}

/// Makes the test of the place that a part is, whose operands stand behind the base: that of its outermost index, or whether a
/// clause of a switch is the one for the first operand.
pub fn test<'a>(
    engine: &mut Engine<'a>,
    checked: &Checked,
    node: &'a TypedNode,
    number: usize,
    base: usize,
) -> Result<(), Exit>
    requires { Known (length checked.now.types.shapes) node.now }
    ensures { Goes checked.now (tests checked.now node.now number base) engine.old result engine.new }
{
    let Some(asked) = part(&node.parts, number) else {
        return Err(Exit::Undecided);
    };
    match as_place(checked, asked) {
        Place::Local(_) => Ok(()),
        Place::Name(_) => Ok(()),
        Place::Variable(_) => Ok(()),
        Place::Blank => Ok(()),
        Place::Inner => test(engine, checked, asked, 0, base),
        Place::Field(_) => test(engine, checked, asked, 0, base),
        Place::Element(length) => test_array(above(&engine.values, base), length),
        Place::Cell => test_slice(above(&engine.values, base)),
        Place::Case(values) => {
            let what = What::Matches {
                next: 0,
                end: values as usize,
                tag: base,
            };
            engine.lay(asked, what)
        }
        Place::Otherwise => {
            engine.give(Value::Truth(false))?;
            Ok(())
        }
        Place::Nothing => Err(Exit::Undecided),
    }
}

/// The index of an element of an array, behind the operands of the array, whose own index is tested before.
pub fn index<'a>(
    engine: &mut Engine<'a>,
    checked: &Checked,
    node: &'a TypedNode,
    base: usize,
) -> Result<(), Exit>
    requires { Known (length checked.now.types.shapes) node.now }
    ensures { Goes checked.now (works checked.now node.now base what.Index) engine.old result engine.new }
{
    let end = engine.top();
    engine.push(node, base, What::Tested { end })?;
    test(engine, checked, node, 0, base)
}

/// The index itself, behind that test.
pub fn tested<'a>(
    engine: &mut Engine<'a>,
    node: &'a TypedNode,
    base: usize,
    end: usize,
) -> Result<(), Exit>
    ensures { (p : PackageView) → Known (length p.types.shapes) node.now → Goes p (works p node.now base (what.Tested end)) engine.old result engine.new }
{
    engine.cut(end);
    let index = engine.top();
    engine.push(node, base, What::Behind { index })?;
    engine.ask(node, 1)
}

/// Puts the index in front of the operands of the array.
pub fn found<'a>(
    engine: &mut Engine<'a>,
    alloc: Global,
    node: &'a TypedNode,
    base: usize,
    index: usize,
) -> Result<(), Exit>
    ensures { (p : PackageView) → Goes p (works p node.now base (what.Behind index)) engine.old result engine.new }
{
    let mut behind = engine.take(alloc, index)?;
    let operands = engine.take(alloc, base)?;
    let first = take_at(&mut behind, 0);
    engine.give(first)?;
    let mut operands = operands;
    engine.values.append(&mut operands)?;
    Ok(())
}
