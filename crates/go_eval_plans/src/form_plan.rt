//! The plan of each form of node.

ghost use Rattle.std.specs.Prelude.{◌≡◌, ◌<◌, ℕ, IfSome, false, length};
ghost use Rattle.go_types.specs.Trees.{TypeTree, boolean};
ghost use Rattle.go_types.specs.Tables.{Table, type_of, rights_of};
ghost use Rattle.go_typed.specs.declared.form.Form.TheVariants as form;
ghost use Rattle.go_typed.specs.Trees.{Label, Sort as sort_of, Typeds};
ghost use Rattle.go_typed.specs.Views.{AllKnown, KnownSort, all_seen, sort_seen};
ghost use Rattle.go_meaning.specs.Plans as plans;
ghost use Rattle.go_meaning.specs.Planning as planning;
ghost use Rattle.go_types.specs.Relations.{Rights};
ghost use Rattle.go_typed.specs.Trees.{sort_mapped};
ghost use Rattle.go_typed.specs.Views.{sort_view};
ghost use Rattle.go_eval_plans.specs.Views.{type_in, plan_view, is_for as for_loop};
ghost use Rattle.go_eval_plans.specs.Known.{KnownPlan};

use crate::groups::{Group, group_of};
use crate::parts::{calls_at, default_at, group_at, is_there, part, sort_type, type_at};
use crate::plan::{Operation, Plan};
use crate::tables;
use go_grammar::kind::{Arithmetic, Operator, Sign, Step};
use go_tree::object::Predeclared;
use go_typed::form::{Form, Referent};
use go_typed::node::TypedNode;
use go_typed::sort::Sort;
use go_types::{TypeId, Types};

fn step(types: &Types, step: Step, parts: &[Option<TypedNode>]) -> Plan
    requires { AllKnown (length types.now.shapes) parts.now }
    ensures plan { (s : sort_of TypeTree) → plan_view (rights_of types.now) (type_of types.now.shapes) s (all_seen types.now parts.now) result
        ≡ plans.Once (plans.StepBy (planning.step_operation step (planning.shape_at (rights_of types.now) (all_seen types.now parts.now) 0))) }
    ensures known { KnownPlan (length types.now.shapes) result }
{
    Plan::StepBy(tables::step_operation(step, group_at(types, parts, 0)))
}

fn operate(types: &Types, operator: Arithmetic, parts: &[Option<TypedNode>]) -> Plan
    requires { AllKnown (length types.now.shapes) parts.now }
    ensures plan { (s : sort_of TypeTree) → plan_view (rights_of types.now) (type_of types.now.shapes) s (all_seen types.now parts.now) result
        ≡ plans.Once (plans.OperateBy (planning.operation operator (planning.shape_at (rights_of types.now) (all_seen types.now parts.now) 0))) }
    ensures known { KnownPlan (length types.now.shapes) result }
{
    Plan::OperateBy(tables::operation(operator, group_at(types, parts, 0)))
}

fn specified(names: u32, parts: &[Option<TypedNode>]) -> Plan
    ensures plan { (t : Table) (s : sort_of TypeTree) → plan_view (rights_of t) (type_of t.shapes) s (all_seen t parts.now) result ≡ plans.Once (planning.specified_plan (rights_of t) names (all_seen t parts.now)) }
    ensures known { (n : ℕ) → AllKnown n parts.now → KnownPlan n result }
{
    if is_there(parts, names as usize + 1) {
        Plan::AssignTo(names)
    } else {
        Plan::ZeroTo(names, type_at(parts, names as usize))
    }
}

fn range(types: &Types, targets: u32, parts: &[Option<TypedNode>]) -> Plan
    requires { AllKnown (length types.now.shapes) parts.now }
    ensures plan { (s : sort_of TypeTree) → plan_view (rights_of types.now) (type_of types.now.shapes) s (all_seen types.now parts.now) result
        ≡ plans.Once (planning.form_plan (rights_of types.now) (form.Range false targets) boolean (all_seen types.now parts.now)) }
    ensures known { KnownPlan (length types.now.shapes) result }
{
    let operand = targets as usize;
    let items = tables::items(
        targets < 2,
        calls_at(parts, operand),
        group_at(types, parts, operand),
    );
    Plan::Iterate(targets, items)
}

fn index(types: &Types, parts: &[Option<TypedNode>]) -> Plan
    requires { AllKnown (length types.now.shapes) parts.now }
    ensures plan { (s : sort_of TypeTree) → plan_view (rights_of types.now) (type_of types.now.shapes) s (all_seen types.now parts.now) result
        ≡ plans.Once (planning.index_plan (planning.shape_at (rights_of types.now) (all_seen types.now parts.now) 0)) }
    ensures known { KnownPlan (length types.now.shapes) result }
{
    tables::index(group_at(types, parts, 0))
}

fn unary(types: &Types, sign: Sign, parts: &[Option<TypedNode>]) -> Plan
    requires { AllKnown (length types.now.shapes) parts.now }
    ensures plan { (s : sort_of TypeTree) → plan_view (rights_of types.now) (type_of types.now.shapes) s (all_seen types.now parts.now) result
        ≡ plans.Once (plans.Perform (planning.unary_operation sign (planning.shape_at (rights_of types.now) (all_seen types.now parts.now) 0))) }
    ensures known { KnownPlan (length types.now.shapes) result }
{
    Plan::Perform(tables::unary(sign, group_at(types, parts, 0)))
}

fn binary(types: &Types, operator: Operator, parts: &[Option<TypedNode>]) -> Plan
    requires { AllKnown (length types.now.shapes) parts.now }
    ensures plan { (s : sort_of TypeTree) → plan_view (rights_of types.now) (type_of types.now.shapes) s (all_seen types.now parts.now) result
        ≡ plans.Once (planning.binary_plan operator (planning.shape_at (rights_of types.now) (all_seen types.now parts.now) 0)) }
    ensures known { KnownPlan (length types.now.shapes) result }
{
    tables::binary(operator, group_at(types, parts, 0))
}

fn conversion(types: &Types, ty: Option<TypeId>, parts: &[Option<TypedNode>]) -> Plan
    requires ty { IfSome ty (λ a. a < length types.now.shapes) }
    requires parts { AllKnown (length types.now.shapes) parts.now }
    ensures plan { (s : sort_of TypeTree) → plan_view (rights_of types.now) (type_of types.now.shapes) s (all_seen types.now parts.now) result
        ≡ plans.Once (plans.Perform (planning.conversion (planning.shape_of (rights_of types.now) (type_in (type_of types.now.shapes) ty)) (planning.shape_at (rights_of types.now) (all_seen types.now parts.now) 1))) }
    ensures known { KnownPlan (length types.now.shapes) result }
{
    Plan::Perform(tables::conversion(group_of(types, ty), group_at(types, parts, 1)))
}

fn composite(types: &Types, ty: Option<TypeId>) -> Plan
    requires { IfSome ty (λ a. a < length types.now.shapes) }
    ensures plan { (s : sort_of TypeTree) (ps : Typeds TypeTree) → plan_view (rights_of types.now) (type_of types.now.shapes) s ps result
        ≡ plans.Once (planning.composite_plan (rights_of types.now) (type_in (type_of types.now.shapes) ty) (planning.shape_of (rights_of types.now) (type_in (type_of types.now.shapes) ty)) ps) }
    ensures known { KnownPlan (length types.now.shapes) result }
{
    match group_of(types, ty) {
        Group::Slice { .. } => Plan::Perform(Operation::Gather),
        _ => Plan::Perform(Operation::Build(ty)),
    }
}

fn builtin(types: &Types, name: Predeclared, parts: &[Option<TypedNode>]) -> Plan
    requires { AllKnown (length types.now.shapes) parts.now }
    ensures plan { (s : sort_of TypeTree) → plan_view (rights_of types.now) (type_of types.now.shapes) s (all_seen types.now parts.now) result
        ≡ plans.Once (planning.builtin_plan (rights_of types.now) name (all_seen types.now parts.now)) }
    ensures known { KnownPlan (length types.now.shapes) result }
{
    match name {
        Predeclared::Len => Plan::Perform(Operation::Length),
        Predeclared::Cap => Plan::Perform(Operation::Capacity),
        Predeclared::Make => {
            Plan::Perform(Operation::MakeSlice(tables::element(group_at(types, parts, 1))))
        }
        Predeclared::Append => {
            Plan::Perform(Operation::Append(tables::element(group_at(types, parts, 1))))
        }
        Predeclared::Copy => Plan::Perform(Operation::Copy),
        Predeclared::Min => Plan::Perform(Operation::Least),
        Predeclared::Max => Plan::Perform(Operation::Greatest),
        Predeclared::Panic => Plan::Perform(Operation::PanicWith),
        _ => Plan::Skip,
    }
}

fn object(referent: Referent, ty: Option<TypeId>) -> Plan
    ensures plan { (rights : Rights) (f : ℕ → TypeTree) (s : sort_of TypeTree) (ps : Typeds TypeTree) → plan_view rights f s ps result ≡ plans.Once (planning.object_plan rights referent (type_in f ty)) }
    ensures known { (n : ℕ) → IfSome ty (λ a. a < n) → KnownPlan n result }
{
    match referent {
        Referent::Variable(number) => Plan::Variable(number),
        Referent::Function(number) => Plan::Function(number),
        Referent::Predeclared(Predeclared::Nil) => Plan::Nil(ty),
        _ => Plan::Skip,
    }
}

/// A call of what has this sort.
fn call_of(types: &Types, callee: &Sort, parts: &[Option<TypedNode>]) -> Plan
    requires { AllKnown (length types.now.shapes) parts.now }
    ensures plan { (s : sort_of TypeTree) → plan_view (rights_of types.now) (type_of types.now.shapes) s (all_seen types.now parts.now) result
        ≡ plans.Once (planning.call_plan (rights_of types.now) (sort_seen types.now callee.now) (all_seen types.now parts.now)) }
    ensures known { KnownPlan (length types.now.shapes) result }
{
    match callee {
        Sort::Println => Plan::Perform(Operation::Print),
        Sort::Builtin(name) => builtin(types, *name, parts),
        _ => Plan::Apply,
    }
}

fn call(types: &Types, parts: &[Option<TypedNode>]) -> Plan
    requires { AllKnown (length types.now.shapes) parts.now }
    ensures plan { (s : sort_of TypeTree) → plan_view (rights_of types.now) (type_of types.now.shapes) s (all_seen types.now parts.now) result
        ≡ plans.Once (planning.form_plan (rights_of types.now) form.Call boolean (all_seen types.now parts.now)) }
    ensures known { KnownPlan (length types.now.shapes) result }
{
    match part(parts, 0) {
        Some(callee) => call_of(types, &callee.sort, parts),
        None => Plan::Apply,
    }
}

/// What a node of this form and type does that is no constant and no `for` without a range clause.
fn form_plan(types: &Types, form: Form, ty: Option<TypeId>, parts: &[Option<TypedNode>]) -> Plan
    requires ty { IfSome ty (λ a. a < length types.now.shapes) }
    requires parts { AllKnown (length types.now.shapes) parts.now }
    ensures plan { (s : sort_of TypeTree) → plan_view (rights_of types.now) (type_of types.now.shapes) s (all_seen types.now parts.now) result
        ≡ plans.Once (planning.form_plan (rights_of types.now) form (type_in (type_of types.now.shapes) ty) (all_seen types.now parts.now)) }
    ensures known { KnownPlan (length types.now.shapes) result }
{
    match form {
        Form::Function | Form::Variables | Form::Block => Plan::Sequence,
        Form::Expression => Plan::Perform(Operation::Drop),
        Form::Step(direction) => step(types, direction, parts),
        Form::Assign(targets) | Form::Define(targets) => Plan::AssignTo(targets),
        Form::Operate(operator) => operate(types, operator, parts),
        Form::Specified(names) => specified(names, parts),
        Form::Return => Plan::Returns,
        Form::Break => Plan::Breaks,
        Form::Continue => Plan::Continues,
        Form::Fallthrough => Plan::Falls,
        Form::If => Plan::Branch,
        Form::Switch => Plan::Select {
            tag: is_there(parts, 1),
            default: default_at(parts),
        },
        Form::Case(values) => Plan::CaseOf(values),
        Form::Default => Plan::Otherwise,
        Form::Range { targets, .. } => range(types, targets, parts),
        Form::Local(number) => Plan::Local(number),
        Form::New(number) | Form::Declared(number) => Plan::Declare(number),
        Form::Object(referent) => object(referent, ty),
        Form::Blank => Plan::Ignore,
        Form::Parenthesized | Form::Keyed(_) => Plan::Inner,
        Form::Selector(field) => Plan::FieldOf(field),
        Form::Index => index(types, parts),
        Form::Slice => Plan::Perform(Operation::Cut {
            low: is_there(parts, 1),
            high: is_there(parts, 2),
        }),
        Form::Call => call(types, parts),
        Form::Conversion => conversion(types, ty, parts),
        Form::Composite => composite(types, ty),
        Form::Unary(sign) => unary(types, sign, parts),
        Form::Binary(operator) => binary(types, operator, parts),
        Form::For
        | Form::Constants
        | Form::TypeNames
        | Form::Literal
        | Form::Type
        | Form::Held(_) => Plan::Skip,
    }
}

fn is_for(form: Form) -> bool
    ensures { result ≡ for_loop form }
{
    matches!(form, Form::For)
}

/// The plan, or that of a constant.
fn of_sort(sort: &Sort, plan: Plan) -> Plan
    ensures plan { (rights : Rights) (f : ℕ → TypeTree) (ps : Typeds TypeTree) (p : plans.Plan) → plan_view rights f (sort_mapped f (sort_view sort.now)) ps plan ≡ plans.Once p →
        plan_view rights f (sort_mapped f (sort_view sort.now)) ps result ≡ plans.Once (planning.sort_plan (sort_mapped f (sort_view sort.now)) p) }
    ensures known { (n : ℕ) → KnownPlan n plan → KnownPlan n result }
{
    match sort {
        Sort::Constant(..) | Sort::OpenConstant(_) => Plan::Constant,
        _ => plan,
    }
}

/// What a node of this form, which stands for this and has these parts, does by itself, whatever else its label says.
pub fn plan_of(types: &Types, form: Form, sort: &Sort, parts: &[Option<TypedNode>]) -> Plan
    requires sort { KnownSort (length types.now.shapes) sort.now }
    requires parts { AllKnown (length types.now.shapes) parts.now }
    ensures plan { (l : Label TypeTree) → l.sort ≡ sort_seen types.now sort.now → plan_view (rights_of types.now) (type_of types.now.shapes) (sort_seen types.now sort.now) (all_seen types.now parts.now) result
        ≡ planning.plan (rights_of types.now) form l (all_seen types.now parts.now) }
    ensures known { KnownPlan (length types.now.shapes) result }
{
    if is_for(form) {
        return Plan::Loop(is_there(parts, 1));
    }
    let plan = form_plan(types, form, sort_type(sort), parts);
    of_sort(sort, plan)
}
