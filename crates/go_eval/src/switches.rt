//! Clauses of switches (Go specification, "Expression switches").

ghost use Rattle.std.specs.Prelude.{◌≡◌, suc, IfOk, length, take};
ghost use Rattle.go_typed.specs.Packages.{PackageView};
ghost use Rattle.go_typed.specs.Views.{Known};
ghost use Rattle.go_meaning.specs.Values.{nth, same_value};
ghost use Rattle.go_values.specs.Views.{view, views};
ghost use Rattle.go_eval_machine.specs.declared.task.What.TheVariants as what;
ghost use Rattle.go_eval_machine.specs.Tasks.{first_above};
ghost use Rattle.go_eval_machine.specs.Engines.{Goes, IsKept, works};

use go_base::Memory;
use go_eval_machine::assigned::below;
use go_eval_machine::engine::Engine;
use go_eval_machine::find::test;
use go_eval_machine::start::count;
use go_eval_machine::task::What;
use go_eval_plans::calls::take_at;
use go_eval_plans::exit::Exit;
use go_eval_plans::places::operand;
use go_typed::checked::Checked;
use go_typed::node::TypedNode;
use go_values::{Value, equal};

/// Takes the first operand out, and drops all of them.
pub fn take_first(engine: &mut Engine<'_>, base: usize) -> Value
    ensures first { view result ≡ first_above base (views engine.old.values.items) }
    ensures values { views engine.new.values.items ≡ take base (views engine.old.values.items) }
    ensures kept { IsKept engine.old engine.new }
{
    let first = take_at(&mut engine.values, base);
    engine.cut(base);
    first
}

/// One more than a number.
fn one_more(number: usize) -> Result<usize, Memory>
    ensures { IfOk result (λ n. n ≡ suc number) }
{
    match number.checked_add(1) {
        Some(next) => Ok(next),
        None => Err(Memory),
    }
}

/// The clauses of a switch from `next` on, behind the tag: the next one is tested, and behind the last one stands the default
/// clause.
pub fn clauses<'a>(
    engine: &mut Engine<'a>,
    checked: &Checked,
    node: &'a TypedNode,
    base: usize,
    next: usize,
    default: usize,
) -> Result<(), Exit>
    requires { Known (length checked.now.types.shapes) node.now }
    ensures { Goes checked.now (works checked.now node.now base (what.Clauses next default)) engine.old result engine.new }
{
    if next >= count(node) {
        return engine.fall(node, base, default);
    }
    let tag = take_first(engine, base);
    let low = engine.top();
    engine.give(tag)?;
    let place = engine.top();
    engine.push(
        node,
        low,
        What::Clause {
            next,
            default,
            test: place,
        },
    )?;
    test(engine, checked, node, next, low)
}

/// Whether the clause `next` is the one, by its test: then it runs, else the clauses behind it are tested.
pub fn clause<'a>(
    engine: &mut Engine<'a>,
    checked: &Checked,
    node: &'a TypedNode,
    base: usize,
    next: usize,
    default: usize,
    test: usize,
) -> Result<(), Exit>
    requires { Known (length checked.now.types.shapes) node.now }
    ensures { Goes checked.now (works checked.now node.now base (what.Clause next default test)) engine.old result engine.new }
{
    if engine.test(test) {
        return engine.fall(node, base, next);
    }
    let following = one_more(next)?;
    clauses(engine, checked, node, base, following, default)
}

/// The expressions of a clause from `next` on, up to `end`: the next one is evaluated.
pub fn matches<'a>(
    engine: &mut Engine<'a>,
    node: &'a TypedNode,
    base: usize,
    next: usize,
    end: usize,
    tag: usize,
) -> Result<(), Exit>
    ensures { (p : PackageView) → Known (length p.types.shapes) node.now → Goes p (works p node.now base (what.Matches next end tag)) engine.old result engine.new }
{
    engine.cut(base);
    if next >= end {
        engine.give(Value::Truth(false))?;
        return Ok(());
    }
    if next >= count(node) {
        engine.give(Value::Truth(false))?;
        return Ok(());
    }
    engine.lay_value(node, What::Match { next, end, tag }, next)
}

/// Whether the first operand is equal to the tag, which stands among the values in front of the operands.
fn is_tag(engine: &Engine<'_>, base: usize, tag: usize) -> bool
    ensures { result ≡ same_value (nth (take base (views engine.now.values.items)) tag) (first_above base (views engine.now.values.items)) }
{
    let nil = Value::NilFunction;
    let front = below(&engine.values, base);
    equal(
        operand(front, tag, &nil),
        operand(&engine.values, base, &nil),
    )
}

/// The expression `next`, behind its value, is compared with the tag.
pub fn match_tag<'a>(
    engine: &mut Engine<'a>,
    node: &'a TypedNode,
    base: usize,
    next: usize,
    end: usize,
    tag: usize,
) -> Result<(), Exit>
    ensures { (p : PackageView) → Known (length p.types.shapes) node.now → Goes p (works p node.now base (what.Match next end tag)) engine.old result engine.new }
{
    if is_tag(engine, base, tag) {
        engine.cut(base);
        engine.give(Value::Truth(true))?;
        return Ok(());
    }
    let following = one_more(next)?;
    matches(engine, node, base, following, end, tag)
}
