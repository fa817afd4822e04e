//! The plans of operators, by groups of types.

ghost use Rattle.std.specs.Prelude.{◌≡◌, ◌<◌, ℕ, IfSome};
ghost use Rattle.go_types.specs.Trees.{TypeTree};
ghost use Rattle.go_types.specs.Relations.{Rights};
ghost use Rattle.go_typed.specs.Trees.{Sort, Typeds};
ghost use Rattle.go_meaning.specs.Plans as plans;
ghost use Rattle.go_meaning.specs.Planning as planning;
ghost use Rattle.go_eval_plans.specs.Known.{KnownGroup};
ghost use Rattle.go_eval_plans.specs.Views.{type_in, member, items_view, operation_view, plan_view};

use crate::groups::Group;
use crate::plan::{Items, Operation, Plan};
use go_grammar::kind::{Arithmetic, Operator, Sign, Step};
use go_ints::Kind;
use go_typed::operators::op_of;
use go_types::TypeId;

fn kind_of(group: Group) -> Kind
    ensures { (f : ℕ → TypeTree) → result ≡ planning.kind_of (member f group) }
{
    match group {
        Group::Integer(kind) => kind,
        _ => Kind::Int,
    }
}

/// An operator on operands of this group, of a shift on such a left operand.
pub fn operation(operator: Arithmetic, group: Group) -> Operation
    ensures { (rights : Rights) (f : ℕ → TypeTree) (ps : Typeds TypeTree) → operation_view rights f ps result ≡ planning.operation operator (member f group) }
{
    match group {
        Group::Text => Operation::Join,
        _ => Operation::Compute(kind_of(group), op_of(operator)),
    }
}

pub fn step_operation(step: Step, group: Group) -> Operation
    ensures { (rights : Rights) (f : ℕ → TypeTree) (ps : Typeds TypeTree) → operation_view rights f ps result ≡ planning.step_operation step (member f group) }
{
    match step {
        Step::Increment => operation(Arithmetic::Add, group),
        Step::Decrement => operation(Arithmetic::Subtract, group),
    }
}

pub fn binary(operator: Operator, group: Group) -> Plan
    ensures { (rights : Rights) (f : ℕ → TypeTree) (s : Sort TypeTree) (ps : Typeds TypeTree) → plan_view rights f s ps result ≡ plans.Once (planning.binary_plan operator (member f group)) }
{
    match operator {
        Operator::Either => Plan::Either,
        Operator::Both => Plan::Both,
        Operator::Compare(comparison) => Plan::Perform(Operation::Compare(comparison)),
        Operator::Compute(arithmetic) => Plan::Perform(operation(arithmetic, group)),
    }
}

pub fn unary(sign: Sign, group: Group) -> Operation
    ensures { (rights : Rights) (f : ℕ → TypeTree) (ps : Typeds TypeTree) → operation_view rights f ps result ≡ planning.unary_operation sign (member f group) }
{
    match sign {
        Sign::Plus => Operation::Keep,
        Sign::Minus => Operation::Negate(kind_of(group)),
        Sign::Not => Operation::Not,
        Sign::Complement => Operation::Complement(kind_of(group)),
    }
}

/// A conversion, by the groups of the target and the operand.
pub fn conversion(target: Group, operand: Group) -> Operation
    ensures { (rights : Rights) (f : ℕ → TypeTree) (ps : Typeds TypeTree) → operation_view rights f ps result ≡ planning.conversion (member f target) (member f operand) }
{
    match (target, operand) {
        (Group::Integer(kind), Group::Integer(_)) => Operation::Wrap(kind),
        (Group::Text, Group::Integer(_)) => Operation::TextOfCode,
        (Group::Text, Group::Slice { .. }) => Operation::TextOfBytes,
        (Group::Slice { .. }, Group::Text) => Operation::BytesOfText,
        _ => Operation::Keep,
    }
}

pub fn index(group: Group) -> Plan
    ensures { (rights : Rights) (f : ℕ → TypeTree) (s : Sort TypeTree) (ps : Typeds TypeTree) → plan_view rights f s ps result ≡ plans.Once (planning.index_plan (member f group)) }
{
    match group {
        Group::Array { length, .. } => Plan::ElementOf(length),
        Group::Slice { .. } => Plan::CellOf,
        _ => Plan::Perform(Operation::Byte),
    }
}

/// The type of an element.
pub fn element(group: Group) -> Option<TypeId>
    ensures ty { (f : ℕ → TypeTree) → type_in f result ≡ planning.element_of (member f group) }
    ensures known { (n : ℕ) → KnownGroup n group → IfSome result (λ a. a < n) }
{
    match group {
        Group::Array { elem, .. } | Group::Slice { elem } => Some(elem),
        _ => None,
    }
}

/// What a range clause goes over, by the group of its operand. With at most one part on the left and an operand without calls
/// the length of an array does.
pub fn items(single: bool, calls: bool, group: Group) -> Items
    ensures { (f : ℕ → TypeTree) → items_view result ≡ planning.items_of single calls (member f group) }
{
    match group {
        Group::Array { length, .. } => {
            if single && !calls {
                Items::Fixed(length)
            } else {
                Items::Elements
            }
        }
        Group::Slice { .. } => Items::Cells,
        Group::Integer(_) => Items::Numbers,
        _ => Items::Runes,
    }
}
