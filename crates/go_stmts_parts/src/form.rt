//! The forms of statements and declarations.
ghost use Rattle.std.specs.Prelude.{◌≡◌, IfOk, length, map};
ghost use Rattle.std.specs.Option.{option_map};
ghost use Rattle.go_typed.specs.Trees.{parts_of};
ghost use Rattle.go_typed.specs.Views.{seen};
ghost use Rattle.go_stmts_defs.specs.Laying.{held_count, first_count, target_count, loop_form, first_loop_form, form_by};

use go_base::Memory;
use go_grammar::kind::{Kind, Sort};
use go_typed::{Form, TypedNode};
use go_types::Types;

/// How many parts a part stands for: those of a holder, or itself.
#[tactic(auto, using(crate::proofs::Counting::held_is, crate::proofs::Counting::alone_is))]
fn held_count(types: &Types, part: &Option<TypedNode>) -> usize
    ensures { result ≡ held_count (option_map (seen types.now) part.now) }
{
    let _types = types;
    match part {
        Some(node) if matches!(node.form, Form::Held(_)) => node.parts.len(),
        _ => 1,
    }
}

/// A number of parts, in 32 bits.
///
/// # Errors
///
/// `Memory`, also where there are 2^32 or more.
fn numbered(count: usize) -> Result<u32, Memory>
    ensures { IfOk result (λ n. n ≡ count) }
{
    if count < 1 << 32 {
        Ok(count as u32)
    } else {
        Err(Memory)
    }
}

/// How many names, targets or cases the first part holds.
///
/// # Errors
///
/// `Memory`, also where there are 2^32 or more.
fn first_count(types: &Types, parts: &[Option<TypedNode>]) -> Result<u32, Memory>
    ensures { IfOk result (λ n. n ≡ first_count (map (option_map (seen types.now)) parts.now)) }
{
    match parts {
        [] => Ok(0),
        [first, ..] => numbered(held_count(types, first)),
    }
}

/// How many targets a range clause has in front of its operand.
#[tactic(auto, using(crate::proofs::Counting::targets_are))]
fn target_count(types: &Types, clause: &TypedNode) -> usize
    ensures { result ≡ target_count (parts_of (seen types.now clause.now)) }
{
    let _types = types;
    clause.parts.len().saturating_sub(1)
}

/// The form of a loop by its header.
///
/// # Errors
///
/// `Memory`, also where it has 2^32 targets or more.
fn loop_form(types: &Types, header: &Option<TypedNode>) -> Result<Form, Memory>
    ensures { IfOk result (λ f. f ≡ loop_form (option_map (seen types.now) header.now)) }
{
    let Some(node) = header else {
        return Ok(Form::For);
    };
    let targets = target_count(types, node);
    match node.form {
        Form::Held(Kind::Range) => Ok(Form::Range {
            defines: false,
            targets: 0,
        }),
        Form::Held(Kind::AssigningRange) => Ok(Form::Range {
            defines: false,
            targets: numbered(targets)?,
        }),
        Form::Held(Kind::DefiningRange) => Ok(Form::Range {
            defines: true,
            targets: numbered(targets)?,
        }),
        _ => Ok(Form::For),
    }
}

fn first_loop_form(types: &Types, parts: &[Option<TypedNode>]) -> Result<Form, Memory>
    ensures { IfOk result (λ f. f ≡ first_loop_form (map (option_map (seen types.now)) parts.now)) }
{
    match parts {
        [] => Ok(Form::For),
        [header, ..] => loop_form(types, header),
    }
}

/// The form of a node of the kind, by its parts as they are written.
///
/// # Errors
///
/// `Memory`, also where 2^32 names, targets or cases or more stand in one place.
pub fn form(types: &Types, kind: Kind, parts: &[Option<TypedNode>]) -> Result<Form, Memory>
    ensures { IfOk result (λ f. f ≡ form_by kind (map (option_map (seen types.now)) parts.now)) }
{
    match kind {
        Kind::FunctionDeclaration => Ok(Form::Function),
        Kind::ExpressionStatement => Ok(Form::Expression),
        Kind::StepStatement(step) => Ok(Form::Step(step)),
        Kind::Assignment => Ok(Form::Assign(first_count(types, parts)?)),
        Kind::OperatorAssignment(operator) => Ok(Form::Operate(operator)),
        Kind::Define => Ok(Form::Define(first_count(types, parts)?)),
        Kind::Declaration(Sort::Variable) => Ok(Form::Variables),
        Kind::Declaration(Sort::Constant) => Ok(Form::Constants),
        Kind::Declaration(Sort::Type) => Ok(Form::TypeNames),
        Kind::Specification(Sort::Variable) => Ok(Form::Specified(first_count(types, parts)?)),
        Kind::Specification(Sort::Constant) => Ok(Form::Specified(first_count(types, parts)?)),
        Kind::Return => Ok(Form::Return),
        Kind::Break => Ok(Form::Break),
        Kind::Continue => Ok(Form::Continue),
        Kind::Fallthrough => Ok(Form::Fallthrough),
        Kind::Block => Ok(Form::Block),
        Kind::If => Ok(Form::If),
        Kind::Switch => Ok(Form::Switch),
        Kind::Case => Ok(Form::Case(first_count(types, parts)?)),
        Kind::Default => Ok(Form::Default),
        Kind::For => first_loop_form(types, parts),
        _ => Ok(Form::Held(kind)),
    }
}
