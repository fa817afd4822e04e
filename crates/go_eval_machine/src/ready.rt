//! What is ready: the values and the places of nodes that need no work of their parts.

ghost use Rattle.std.specs.Prelude.{◌≡◌, ◌≤◌, ◌<◌, ℕ, ◌∷◌, [], Some, IsTrue, IfOk, IfSome};
ghost use Rattle.go_types_relations.specs.Questions.{entry};
ghost use Rattle.go_types.specs.Trees.{TypeTree};
ghost use Rattle.go_types.specs.Relations.{Rights};
ghost use Rattle.go_typed.specs.Trees.{Sort as sort_of, Typeds, sort_mapped};
ghost use Rattle.go_typed.specs.Packages.{PackageView};
ghost use Rattle.go_typed.specs.Views.{sort_seen, sort_view};
ghost use Rattle.go_typed.specs.declared.node.TypedNode.TheViews.{out-TypedNode};
ghost use Rattle.go_meaning.specs.Computations.{Next, give};
ghost use Rattle.go_meaning.specs.Doings.{at};
ghost use Rattle.go_meaning.specs.Planning as planning;
ghost use Rattle.go_meaning.specs.Plans as plans;
ghost use Rattle.go_eval_plans.specs.declared.plan.Plan.TheVariants.{Sequence};
ghost use Rattle.go_eval_plans.specs.Views.{plan_view, constant_in};
ghost use Rattle.go_values.specs.Views.{view};
ghost use Rattle.go_eval_plans.specs.Machines.{outcome, ends};
ghost use Rattle.go_eval_plans.specs.Programs.{doing};
ghost use Rattle.go_eval_machine.specs.Tasks.{parts_of};
ghost use Rattle.go_eval_machine.specs.Giving.{HasPlan};

use crate::loops::is_loop;
use go_base::Memory;
use go_eval_plans::machine::Machine;
use go_eval_plans::parts::part;
use go_eval_plans::places::operand;
use go_eval_plans::plan::Plan;
use go_typed::form::{Form, Referent};
use go_typed::node::TypedNode;
use go_typed::sort::Sort;
use go_values::Value;
use std::alloc::Global;

/// The plan of a name, or of a block, that is no constant.
fn form_plan(form: Form) -> Option<Plan>
    ensures { IfSome result (λ q. (rights : Rights) (f : ℕ → TypeTree) (s : sort_of TypeTree) (t : TypeTree) (ps : Typeds TypeTree) → plan_view rights f s ps q ≡ plans.Once (planning.form_plan rights form t ps)) }
{
    match form {
        Form::Local(number) => Some(Plan::Local(number)),
        Form::Object(Referent::Variable(number)) => Some(Plan::Variable(number)),
        Form::Object(Referent::Function(number)) => Some(Plan::Function(number)),
        Form::New(number) => Some(Plan::Declare(number)),
        Form::Declared(number) => Some(Plan::Declare(number)),
        Form::Blank => Some(Plan::Ignore),
        Form::Block => Some(Plan::Sequence),
        _ => None,
    }
}

/// The plan, or that of a constant.
fn of_sort(sort: &Sort, plan: Option<Plan>) -> Option<Plan>
    ensures { IfSome result (λ q. (rights : Rights) (f : ℕ → TypeTree) (ps : Typeds TypeTree) (p : plans.Plan) → IfSome plan (λ o. plan_view rights f (sort_mapped f (sort_view sort.now)) ps o ≡ plans.Once p) →
        plan_view rights f (sort_mapped f (sort_view sort.now)) ps q ≡ plans.Once (planning.sort_plan (sort_mapped f (sort_view sort.now)) p)) }
{
    match sort {
        Sort::Constant(..) | Sort::OpenConstant(_) => Some(Plan::Constant),
        _ => plan,
    }
}

/// The plan of a constant, a name or a block; none of another node.
fn ready_plan(node: &TypedNode) -> Option<Plan>
    ensures { (p : PackageView) → IfSome result (HasPlan p node.now) }
{
    if is_loop(node) {
        return None;
    }
    of_sort(&node.sort, form_plan(node.form))
}

/// The constant that a node is; a nil function where it is none.
///
/// # Errors
///
/// Want of memory.
pub fn constant_of(node: &TypedNode) -> Result<Value, Memory>
    ensures { IfOk result (λ v. (p : PackageView) → view v ≡ constant_in (sort_seen p.types (out-TypedNode node.now).sort)) }
{
    match &node.sort {
        Sort::Constant(_, constant) => Value::of_constant(constant.get()),
        Sort::OpenConstant(constant) => Value::of_constant(constant.get()),
        _ => Ok(Value::NilFunction),
    }
}

/// The value of a constant, or of the name of a function or of a variable; none of another node.
///
/// # Errors
///
/// Want of memory.
pub fn ready_value(
    alloc: Global,
    machine: &Machine,
    node: &TypedNode,
) -> Result<Option<Value>, Memory>
    ensures { IfOk result (λ o. IfSome o (λ v. (p : PackageView) (n d : ℕ) → outcome (doing p n node.now).value d machine.now ≡ ends (Next (view v ∷ [])) machine.now)) }
{
    let nil = Value::NilFunction;
    match ready_plan(node) {
        Some(Plan::Constant) => Ok(Some(constant_of(node)?)),
        Some(Plan::Function(number)) => Ok(Some(Value::Function(number))),
        Some(Plan::Local(number)) => {
            let value = operand(&machine.frame, number as usize, &nil).copy_of(alloc)?;
            Ok(Some(value))
        }
        Some(Plan::Variable(number)) => {
            let value = machine.world.read_variable(alloc, number as usize)?;
            Ok(Some(value))
        }
        _ => Ok(None),
    }
}

/// A part that is a block.
pub fn block_at(node: &TypedNode, number: usize) -> Option<&TypedNode>
    ensures { IfSome result (λ block. (entry (out-TypedNode node.now).parts.items number ≡ Some block.now) × ((p : PackageView) → HasPlan p block.now Sequence)) }
{
    let block = part(&node.parts, number)?;
    match ready_plan(block) {
        Some(Plan::Sequence) => Some(block),
        _ => None,
    }
}

/// Whether a node is a place without operands: a variable, a name that is declared, or the blank identifier.
fn is_plain_place(node: &TypedNode) -> bool
    ensures { IsTrue result → (p : PackageView) (n : ℕ) → (doing p n node.now).find ≡ give [] }
{
    match ready_plan(node) {
        Some(Plan::Local(_)) => true,
        Some(Plan::Variable(_)) => true,
        Some(Plan::Declare(_)) => true,
        Some(Plan::Ignore) => true,
        _ => false,
    }
}

/// Whether a part is there and is such a place.
pub fn is_plain_part(node: &TypedNode, number: usize) -> bool
    ensures { IsTrue result → (p : PackageView) (n : ℕ) → (at (parts_of p n node.now) number).find ≡ give [] }
{
    match part(&node.parts, number) {
        Some(place) => is_plain_place(place),
        None => false,
    }
}

/// The number of the first part from one on, up to `end`, that is no such place; `end` where all are.
pub fn first_sought(node: &TypedNode, next: usize, end: usize) -> usize
    requires { next ≤ end }
    ensures first { next ≤ result }
    ensures plain { (p : PackageView) (n k : ℕ) → next ≤ k → k < result → (at (parts_of p n node.now) k).find ≡ give [] }
{
    for number in next..end {
        if !is_plain_part(node, number) {
            return number;
        }
    }
    end
}
