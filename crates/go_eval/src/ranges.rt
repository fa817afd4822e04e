//! Range clauses (Go specification, "For statements with range clause").

ghost use Rattle.std.specs.Prelude.{◌≡◌, ◌<◌, ◌+◌, IfOk, length};
ghost use Rattle.std.specs.Option.{option_map};
ghost use Rattle.go_typed.specs.Packages.{PackageView};
ghost use Rattle.go_typed.specs.Views.{Known};
ghost use Rattle.go_eval_operations.specs.Places.{item_values};
ghost use Rattle.go_values.specs.Views.{view, views};
ghost use Rattle.go_eval_machine.specs.declared.task.What.TheVariants as what;
ghost use Rattle.go_eval_machine.specs.Tasks.{IsFit, IsIteration};
ghost use Rattle.go_eval_machine.specs.Engines.{Goes, works};

use crate::switches::take_first;
use go_eval_machine::engine::Engine;
use go_eval_machine::operands::above;
use go_eval_machine::store::store_all;
use go_eval_machine::task::{Iteration, What};
use go_eval_operations::{item_at, item_count};
use go_eval_plans::exit::Exit;
use go_eval_plans::plan::Items;
use go_typed::checked::Checked;
use go_typed::node::TypedNode;
use go_values::Value;
use std::alloc::{AllocError, Global};

/// The items of a range clause, behind its operand: they are counted once.
pub fn items<'a>(
    engine: &mut Engine<'a>,
    alloc: Global,
    node: &'a TypedNode,
    base: usize,
    targets: u32,
    items: Items,
) -> Result<(), Exit>
    ensures { (p : PackageView) → Known (length p.types.shapes) node.now → Goes p (works p node.now base (what.Items targets items)) engine.old result engine.new }
{
    let operand = take_first(engine, base);
    let count = item_count(items, &operand);
    let first = Iteration {
        targets,
        items,
        operand,
        count,
        next: 0,
        place: 0,
    };
    let iteration = Box::new(alloc, first)?;
    item(engine, node, base, iteration)
}

/// The items from one on: a turn is spent for the next one, and the operands of its targets are found.
pub fn item<'a>(
    engine: &mut Engine<'a>,
    node: &'a TypedNode,
    base: usize,
    iteration: Box<Iteration>,
) -> Result<(), Exit>
    ensures { (p : PackageView) → IsFit (length p.types.shapes) node.now (what.Item iteration) → Goes p (works p node.now base (what.Item iteration)) engine.old result engine.new }
{
    engine.cut(base);
    if iteration.next >= iteration.count {
        return Ok(());
    }
    engine.machine.spend()?;
    let end = iteration.targets as usize;
    engine.lay_finds(node, What::ItemTo(iteration), end)
}

/// The values of an item as a list.
fn values_of(alloc: Global, first: Value, second: Option<Value>) -> Result<Vec<Value>, AllocError>
    ensures { IfOk result (λ vs. views vs.items ≡ item_values (view first) (option_map view second)) }
{
    let mut values = Vec::new(alloc);
    values.push(first)?;
    if let Some(second) = second {
        values.push(second)?;
    }
    Ok(values)
}

/// The number behind one of so many.
fn following(number: u128, count: u128) -> u128
    ensures { number < count → result ≡ number + 1 }
{
    if number < count { number + 1 } else { count }
}

/// The next item is assigned to its targets, whose operands stand behind the base, and the block runs.
pub fn item_to<'a>(
    engine: &mut Engine<'a>,
    alloc: Global,
    checked: &Checked,
    node: &'a TypedNode,
    base: usize,
    iteration: Box<Iteration>,
) -> Result<(), Exit>
    requires node { Known (length checked.now.types.shapes) node.now }
    requires iteration { IsIteration iteration.value }
    requires next { iteration.value.next < iteration.value.count }
    ensures { Goes checked.now (works checked.now node.now base (what.ItemTo iteration)) engine.old result engine.new }
{
    let mut iteration = iteration;
    let item = item_at(
        alloc,
        iteration.items,
        iteration.next,
        iteration.place,
        &iteration.operand,
        &engine.machine.world,
    )?;
    let place = item.next;
    let targets = iteration.targets as usize;
    let values = values_of(alloc, item.first, item.second)?;
    let answer = store_all(
        alloc,
        checked,
        &node.parts,
        targets,
        above(&engine.values, base),
        values,
        &mut engine.machine,
    );
    engine.cut(base);
    answer?;
    iteration.next = following(iteration.next, iteration.count);
    iteration.place = place;
    let block = targets + 1;
    engine.lay_block(alloc, checked, node, What::ItemRound(iteration), block)
}
