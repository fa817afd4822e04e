//! Which rule of a statement fails.
ghost use Rattle.std.specs.Prelude.{◌≡◌, [], IfOk, if◌then◌else◌, length, map, take};
ghost use Rattle.std.specs.Option.{option_map};
ghost use Rattle.go_types.specs.Tables.{rights_of};
ghost use Rattle.go_typed.specs.Views.{seen, AllKnown};
ghost use Rattle.go_base.specs.declared.fault.FaultCode.TheVariants as code;
ghost use Rattle.go_exprs_rules.specs.Faults.{least};
ghost use Rattle.go_exprs_rules.specs.Seen.{AreBasics};
ghost use Rattle.go_exprs_rules.specs.Settling.{at_part};
ghost use Rattle.go_exprs_rules.specs.Tables.{on_one, present};
ghost use Rattle.go_grammar.specs.declared.kind.Kind.TheVariants as kinds;
ghost use Rattle.go_typed.specs.declared.form.Form.TheVariants as forms;
ghost use Rattle.go_stmts_defs.specs.Frames.{Frame};
ghost use Rattle.go_stmts_defs.specs.Rules as rules;
ghost use Rattle.go_stmts_defs.specs.Targets.{is_statement_call};
ghost use Rattle.go_stmts_rules.specs.Told.{Agrees, KnownAround, statement_failing};

use crate::around::Around;
use crate::assign::assignment;
use crate::branches::{cases_fault, function_fault, second_condition, second_tag};
use crate::constants::{constants_fault, type_there, values_there, variables_fault};
use crate::nodes::{behind, front};
use crate::operations::operate_fault;
use crate::ranges::loop_fault;
use crate::targets::{assign_fault, define_fault, step_fault};
use crate::wanted::result_types;
use go_base::{FaultCode, Memory};
use go_exprs_calls::arguments::present;
use go_exprs_rules::nodes::fault_at;
use go_exprs_rules::{Basics, Place, TypeFault};
use go_grammar::kind::{Arithmetic, Kind, Sort as Declared};
use go_stmts_parts::calls::is_statement_call;
use go_typed::{Form, TypedNode};
use go_types::Types;
use std::alloc::Global;

/// How many names, targets or values stand in front of the other parts.
pub fn names_in(form: Form) -> u32
    ensures { result ≡ rules.names_in form }
{
    match form {
        Form::Assign(count) => count,
        Form::Define(count) => count,
        Form::Specified(count) => count,
        Form::Case(count) => count,
        _ => 0,
    }
}

/// The fault of an expression that may not be a statement.
fn expression_fault(types: &Types, parts: &[Option<TypedNode>]) -> Option<TypeFault>
    requires { AllKnown (length types.now.shapes) parts.now }
    ensures { result ≡ least (on_one [] (λ x. if is_statement_call x then [] else at_part code.UnusedValue x) (map (option_map (seen types.now)) parts.now)) }
{
    match parts {
        [Some(node)] => if is_statement_call(types, node) {
            None
        } else {
            Some(fault_at(types, node, FaultCode::UnusedValue))
        },
        _ => None,
    }
}

/// The fault of an increment or decrement.
fn stepped(types: &Types, place: Place, parts: &[Option<TypedNode>]) -> Option<TypeFault>
    requires { AllKnown (length types.now.shapes) parts.now }
    ensures { result ≡ least (on_one [] (rules.step_failing (rights_of types.now) place.first place.last) (map (option_map (seen types.now)) parts.now)) }
{
    match parts {
        [Some(target)] => step_fault(types, place, target),
        _ => None,
    }
}

/// The fault of an assignment with an operator.
fn operated(
    alloc: Global,
    types: &Types,
    basics: Basics,
    place: Place,
    operator: Arithmetic,
    parts: &[Option<TypedNode>],
) -> Result<Option<TypeFault>, Memory>
    requires basics { AreBasics types.now basics }
    requires parts { AllKnown (length types.now.shapes) parts.now }
    ensures { (s : Frame) → s.around.rights ≡ rights_of types.now →
        IfOk result (λ o. o ≡ least (rules.failing s (kinds.OperatorAssignment operator) forms.Return place.first place.last (map (option_map (seen types.now)) parts.now))) }
{
    match parts {
        [Some(left), Some(right)] => {
            operate_fault(alloc, types, basics, place, operator, left, right)
        }
        _ => Ok(None),
    }
}

/// The fault of an assignment to so many targets.
fn assigned(
    alloc: Global,
    types: &Types,
    basics: Basics,
    place: Place,
    count: u32,
    parts: &[Option<TypedNode>],
) -> Result<Option<TypeFault>, Memory>
    requires basics { AreBasics types.now basics }
    requires parts { AllKnown (length types.now.shapes) parts.now }
    ensures { IfOk result (λ o. o ≡ least (rules.split_at count (rules.assign_failing (rights_of types.now) place.first place.last) (map (option_map (seen types.now)) parts.now))) }
{
    let nodes = present(alloc, types, parts)?;
    let targets = front(types, &nodes, count);
    let values = behind(types, &nodes, count);
    assign_fault(alloc, types, basics, place, targets, values)
}

/// The fault of a short declaration of so many names.
fn defined(
    alloc: Global,
    types: &Types,
    around: Around<'_>,
    place: Place,
    count: u32,
    parts: &[Option<TypedNode>],
) -> Result<Option<TypeFault>, Memory>
    requires basics { AreBasics types.now around.basics }
    requires around { KnownAround (length types.now.shapes) around }
    requires parts { AllKnown (length types.now.shapes) parts.now }
    ensures { (s : Frame) → Agrees types.now around.entry s → IfOk result (λ o. o ≡ least (rules.split_at count (rules.define_failing s place.first place.last) (map (option_map (seen types.now)) parts.now))) }
{
    let nodes = present(alloc, types, parts)?;
    let names = front(types, &nodes, count);
    let values = behind(types, &nodes, count);
    define_fault(
        alloc,
        types,
        around.basics,
        around.locals,
        place,
        names,
        values,
    )
}

/// The fault of a specification of so many variables.
fn variables(
    alloc: Global,
    types: &Types,
    basics: Basics,
    place: Place,
    count: u32,
    parts: &[Option<TypedNode>],
) -> Result<Option<TypeFault>, Memory>
    requires basics { AreBasics types.now basics }
    requires parts { AllKnown (length types.now.shapes) parts.now }
    ensures { let ys = map (option_map (seen types.now)) parts.now in
        IfOk result (λ o. o ≡ least (rules.variables_failing (rights_of types.now) place.first place.last count (rules.type_there count ys) (rules.values_there count ys))) }
{
    let of = type_there(types, parts, count);
    let values = values_there(alloc, types, parts, count)?;
    variables_fault(alloc, types, basics, place, count, of, &values)
}

/// The fault of a specification of so many constants.
fn constants(
    alloc: Global,
    types: &Types,
    place: Place,
    count: u32,
    parts: &[Option<TypedNode>],
) -> Result<Option<TypeFault>, Memory>
    requires parts { AllKnown (length types.now.shapes) parts.now }
    ensures { let ys = map (option_map (seen types.now)) parts.now in
        IfOk result (λ o. o ≡ least (rules.constants_counted (rights_of types.now) place.first place.last count (rules.type_there count ys) (rules.values_there count ys))) }
{
    let of = type_there(types, parts, count);
    let values = values_there(alloc, types, parts, count)?;
    Ok(constants_fault(types, place, count, of, &values))
}

/// The fault of returned values.
fn returned(
    alloc: Global,
    types: &Types,
    around: Around<'_>,
    place: Place,
    parts: &[Option<TypedNode>],
) -> Result<Option<TypeFault>, Memory>
    requires basics { AreBasics types.now around.basics }
    requires around { KnownAround (length types.now.shapes) around }
    requires parts { AllKnown (length types.now.shapes) parts.now }
    ensures { (s : Frame) → Agrees types.now around.entry s → IfOk result (λ o. o ≡ least (rules.failing s kinds.Return forms.Return place.first place.last (map (option_map (seen types.now)) parts.now))) }
{
    let wanted = result_types(alloc, types, around.results)?;
    let values = present(alloc, types, parts)?;
    Ok(assignment(types, around.basics, place, &wanted, &values))
}

/// The fault of so many values of a case.
fn case(
    alloc: Global,
    types: &Types,
    around: Around<'_>,
    count: u32,
    parts: &[Option<TypedNode>],
) -> Result<Option<TypeFault>, Memory>
    requires basics { AreBasics types.now around.basics }
    requires around { KnownAround (length types.now.shapes) around }
    requires parts { AllKnown (length types.now.shapes) parts.now }
    ensures { (s : Frame) → Agrees types.now around.entry s → IfOk result (λ o. o ≡ least (rules.each (rules.case_failing s.around.rights s.tag) (take count (present (map (option_map (seen types.now)) parts.now))))) }
{
    let nodes = present(alloc, types, parts)?;
    let values = front(types, &nodes, count);
    cases_fault(alloc, types, around.basics, around.tag, values)
}

/// The least fault of the rules of a statement or a declaration at its place, by its kind, its form and its parts as they are laid
/// out; the rules of a type's right side are not among them.
///
/// # Errors
///
/// Want of memory.
pub fn fault(
    alloc: Global,
    types: &Types,
    around: Around<'_>,
    kind: Kind,
    form: Form,
    place: Place,
    parts: &[Option<TypedNode>],
) -> Result<Option<TypeFault>, Memory>
    requires basics { AreBasics types.now around.basics }
    requires around { KnownAround (length types.now.shapes) around }
    requires parts { AllKnown (length types.now.shapes) parts.now }
    ensures { (s : Frame) → Agrees types.now around.entry s → IfOk result (λ o. o ≡ least (statement_failing s kind form place.first place.last (map (option_map (seen types.now)) parts.now))) }
{
    let basics = around.basics;
    match kind {
        Kind::ExpressionStatement => Ok(expression_fault(types, parts)),
        Kind::StepStatement(_) => Ok(stepped(types, place, parts)),
        Kind::OperatorAssignment(operator) => {
            operated(alloc, types, basics, place, operator, parts)
        }
        Kind::Assignment => assigned(alloc, types, basics, place, names_in(form), parts),
        Kind::Define => defined(alloc, types, around, place, names_in(form), parts),
        Kind::Specification(Declared::Variable) => {
            variables(alloc, types, basics, place, names_in(form), parts)
        }
        Kind::Specification(Declared::Constant) => {
            constants(alloc, types, place, names_in(form), parts)
        }
        Kind::Return => returned(alloc, types, around, place, parts),
        Kind::If => Ok(second_condition(types, parts)),
        Kind::For => loop_fault(alloc, types, basics, place, form, parts),
        Kind::Switch => Ok(second_tag(types, basics, parts)),
        Kind::Case => case(alloc, types, around, names_in(form), parts),
        Kind::FunctionDeclaration => Ok(function_fault(types, around.results, place, parts)),
        _ => Ok(None),
    }
}
