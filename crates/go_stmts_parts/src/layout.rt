//! How the parts of statements and declarations are laid out.
ghost use Rattle.std.specs.Prelude.{◌≡◌, ◌∷◌, [], ℕ, IfOk, length, map};
ghost use Rattle.std.specs.Option.{option_map};
ghost use Rattle.go_types.specs.Tables.{type_of};
ghost use Rattle.go_typed.specs.Views.{seen, AllKnown};
ghost use Rattle.go_typed.specs.Scopes.{KnownLocals};
ghost use Rattle.go_exprs_rules.specs.Tables.{all_held, behind_first};
ghost use Rattle.go_exprs_types.specs.Naming.{locals_seen};
ghost use Rattle.go_stmts_defs.specs.Frames.{Frame, declared_type};
ghost use Rattle.go_stmts_defs.specs.Laying.{new_form, new_name, without_absent};
ghost use Rattle.go_stmts_parts.specs.Layouts.{laid};

use crate::headers::{for_parts, if_parts, switch_parts};
use crate::specifications::{all_names, specification_parts, specifications};
use go_base::Memory;
use go_exprs_engine::layout::{all_held, behind_first};
use go_exprs_rules::sorts::own_type;
use go_grammar::kind::{Kind, Sort};
use go_typed::{Form, Locals, TypedNode};
use go_types::{TypeId, Types};
use std::alloc::Global;

/// Typed parts, of which some may be left out.
type Parts = Vec<Option<TypedNode>>;

/// The type of a local that is declared already.
fn declared_type(types: &Types, locals: &Locals, number: u32) -> Option<TypeId>
    requires { KnownLocals (length types.now.shapes) locals.now }
    ensures { option_map (type_of types.now.shapes) result ≡ declared_type (locals_seen types.now locals.now.sorts) number }
{
    own_type(types, locals.sort(number as usize)?)
}

/// A name of `:=` or of a range clause: a local that is declared there, or one that is declared already.
fn new_form(types: &Types, locals: &Locals, form: Form) -> Form
    requires { KnownLocals (length types.now.shapes) locals.now }
    ensures { result ≡ new_form (locals_seen types.now locals.now.sorts) form }
{
    match form {
        Form::Declared(number) => match declared_type(types, locals, number) {
            Some(_) => Form::Local(number),
            None => Form::New(number),
        },
        _ => form,
    }
}

fn new_name(types: &Types, locals: &Locals, part: &mut Option<TypedNode>)
    requires locals { KnownLocals (length types.now.shapes) locals.now }
    requires part { AllKnown (length types.now.shapes) (part.old ∷ []) }
    ensures part { option_map (seen types.now) part.new ≡ new_name (locals_seen types.now locals.now.sorts) (option_map (seen types.now) part.old) }
    ensures known { AllKnown (length types.now.shapes) (part.new ∷ []) }
{
    if let Some(node) = part {
        node.form = new_form(types, locals, node.form);
    }
}

/// The names of `:=` or of a range clause.
fn new_names(types: &Types, locals: &Locals, parts: &mut [Option<TypedNode>])
    requires locals { KnownLocals (length types.now.shapes) locals.now }
    requires parts { AllKnown (length types.now.shapes) parts.old }
    ensures parts { map (option_map (seen types.now)) parts.new ≡ map (new_name (locals_seen types.now locals.now.sorts)) (map (option_map (seen types.now)) parts.old) }
    ensures known { AllKnown (length types.now.shapes) parts.new }
{
    for number in 0..parts.len() {
        new_name(types, locals, &mut parts[number]);
    }
}

/// The parts that are there.
fn without_absent(alloc: Global, types: &Types, parts: Parts) -> Result<Parts, Memory>
    requires { AllKnown (length types.now.shapes) parts.items }
    ensures parts { IfOk result (λ ps. map (option_map (seen types.now)) ps.items ≡ without_absent (map (option_map (seen types.now)) parts.items)) }
    ensures known { IfOk result (λ ps. AllKnown (length types.now.shapes) ps.items) }
{
    let _types = types;
    let mut out = Vec::new(alloc);
    for part in parts {
        if let Some(node) = part {
            out.push(Some(node))?;
        }
    }
    Ok(out)
}

/// The parts of a node of the kind, with those of the nodes that only hold parts in their places. Of a specification of types it
/// answers the parts as they are.
///
/// # Errors
///
/// Want of memory.
pub fn layout(
    alloc: Global,
    types: &Types,
    locals: &Locals,
    kind: Kind,
    parts: Parts,
) -> Result<Parts, Memory>
    requires locals { KnownLocals (length types.now.shapes) locals.now }
    requires parts { AllKnown (length types.now.shapes) parts.items }
    ensures parts { IfOk result (λ ps. (s : Frame) (i : ℕ) → s.locals ≡ locals_seen types.now locals.now.sorts → map (option_map (seen types.now)) ps.items ≡ laid s kind i (map (option_map (seen types.now)) parts.items)) }
    ensures known { IfOk result (λ ps. AllKnown (length types.now.shapes) ps.items) }
{
    match kind {
        Kind::Targets => all_held(alloc, types, parts),
        Kind::NewNames => {
            let mut names = all_held(alloc, types, parts)?;
            new_names(types, locals, &mut names);
            Ok(names)
        }
        Kind::Values => all_held(alloc, types, parts),
        Kind::TypedValues => all_held(alloc, types, parts),
        Kind::Specification(Sort::Type) => Ok(parts),
        Kind::Specification(_) => specification_parts(alloc, types, parts),
        Kind::Declaration(Sort::Variable) => specifications(alloc, types, parts),
        Kind::Declaration(_) => {
            let each = specifications(alloc, types, parts)?;
            all_names(alloc, types, each)
        }
        Kind::Assignment => all_held(alloc, types, parts),
        Kind::Define => all_held(alloc, types, parts),
        Kind::Case => all_held(alloc, types, parts),
        Kind::Return => {
            let values = all_held(alloc, types, parts)?;
            without_absent(alloc, types, values)
        }
        Kind::If => if_parts(alloc, types, parts),
        Kind::Switch => switch_parts(alloc, types, parts),
        Kind::For => for_parts(alloc, types, parts),
        Kind::AssigningRange => all_held(alloc, types, parts),
        Kind::DefiningRange => all_held(alloc, types, parts),
        Kind::FunctionDeclaration => { without_absent(alloc, types, behind_first(types, parts)) }
        _ => Ok(parts),
    }
}
