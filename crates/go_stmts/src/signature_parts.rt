//! What the signature of a function says of its body (Go specification: Function declarations).
ghost use Rattle.std.specs.Prelude.{◌≡◌, ◌<◌, ◌∷◌, [], IfOk, length, map};
ghost use Rattle.std.specs.List.{AllByRecursion};
ghost use Rattle.std.specs.Option.{option_map};
ghost use Rattle.go_types.specs.Tables.{type_of, rights_of};
ghost use Rattle.go_typed.specs.Views.{seen, AllKnown};
ghost use Rattle.go_typed.specs.Scopes.{KnownLocals};
ghost use Rattle.go_exprs_rules.specs.TypeNodes.{part_type, entry_types, parts_in};
ghost use Rattle.go_stmts_defs.specs.Frames.{Frame};
ghost use Rattle.go_stmts_defs.specs.Reading.{head, first_parts, signature_results, with_parameter, with_parameters};
ghost use Rattle.go_stmts_rules.specs.Seen.{locals_in, types_seen};
ghost use Rattle.go_stmts.specs.Signatures.{entries_seen, KnownEntry};

use crate::declare::declare_local;
use go_base::Memory;
use go_exprs_rules::nodes::sort_of;
use go_exprs_types::sequence::named_type;
use go_exprs_types::signature::{entry, parts_of};
use go_stmts_rules::assign::results_of;
use go_typed::{Locals, Sort, TypedNode};
use go_types::{TypeId, Types};
use std::alloc::Global;

/// The parts of the first of some parts.
fn parts_in_first<'a>(types: &Types, parts: &'a [Option<TypedNode>]) -> &'a [Option<TypedNode>]
    requires { AllKnown (length types.now.shapes) parts.now }
    ensures parts { map (option_map (seen types.now)) result.now ≡ parts_in (head (map (option_map (seen types.now)) parts.now)) }
    ensures known { AllKnown (length types.now.shapes) result.now }
{
    match parts {
        [Some(first), ..] => parts_of(types, first),
        _ => &[],
    }
}

/// The entries of the parameters of a signature.
pub fn parameters<'a>(types: &Types, signature: &'a Option<TypedNode>) -> &'a [Option<TypedNode>]
    requires { AllKnown (length types.now.shapes) (signature.now ∷ []) }
    ensures parts { map (option_map (seen types.now)) result.now ≡ first_parts (option_map (seen types.now) signature.now) }
    ensures known { AllKnown (length types.now.shapes) result.now }
{
    match signature {
        Some(node) => parts_in_first(types, parts_of(types, node)),
        None => &[],
    }
}

/// The type of each entry, if it has one.
pub(crate) fn entry_types(
    alloc: Global,
    types: &Types,
    entries: &[Option<TypedNode>],
) -> Result<Vec<Option<TypeId>>, Memory>
    requires { AllKnown (length types.now.shapes) entries.now }
    ensures tree { IfOk result (λ v. entries_seen types.now v.items ≡ entry_types (map (option_map (seen types.now)) entries.now)) }
    ensures known { IfOk result (λ v. AllByRecursion (KnownEntry (length types.now.shapes)) v.items) }
{
    let mut found = Vec::new(alloc);
    let mut next = None;
    for number in (0..entries.len()).rev() {
        let Some(part) = &entries[number] else {
            continue
        };
        next = entry(types, part, next);
        found.push(next)?;
    }
    found.reverse();
    Ok(found)
}

/// A parameter is a variable of its type.
fn declare_parameter(types: &Types, locals: &mut Locals, name: Option<u32>, of: Option<TypeId>)
    requires locals { KnownLocals (length types.now.shapes) locals.old }
    requires of { KnownEntry (length types.now.shapes) of }
    ensures locals { (s : Frame) → s.locals ≡ locals_in types.now locals.old → with_parameter name (option_map (type_of types.now.shapes) of) s ≡ record s { locals = locals_in types.now locals.new } }
    ensures iota { locals.new.iota ≡ locals.old.iota }
    ensures known { KnownLocals (length types.now.shapes) locals.new }
{
    if let (Some(number), Some(of)) = (name, of) {
        declare_local(types, locals, number, Sort::Value(of));
    }
}

/// Parameters of these names, if they have any, are variables of these types.
pub(crate) fn declare_parameters(
    types: &Types,
    locals: &mut Locals,
    names: &[Option<u32>],
    of: &[Option<TypeId>],
)
    requires locals { KnownLocals (length types.now.shapes) locals.old }
    requires of { AllByRecursion (KnownEntry (length types.now.shapes)) of.now }
    ensures locals { (s : Frame) → s.locals ≡ locals_in types.now locals.old → with_parameters names.now (entries_seen types.now of.now) s ≡ record s { locals = locals_in types.now locals.new } }
    ensures iota { locals.new.iota ≡ locals.old.iota }
    ensures known { KnownLocals (length types.now.shapes) locals.new }
{
    for number in 0..names.len().min(of.len()) {
        declare_parameter(types, locals, names[number], of[number]);
    }
}

/// The types of the results of a signature.
pub(crate) fn signature_results<'a>(types: &'a Types, signature: &Option<TypedNode>) -> &'a [TypeId]
    requires { AllKnown (length types.now.shapes) (signature.now ∷ []) }
    ensures tree { (s : Frame) → s.around.rights ≡ rights_of types.now → types_seen types.now result.now ≡ signature_results s (part_type (option_map (seen types.now) signature.now)) }
    ensures known { AllByRecursion (λ t. t < length types.now.shapes) result.now }
{
    let Some(node) = signature else {
        return &[];
    };
    match named_type(types, sort_of(types, node)) {
        Some(of) => results_of(types, of),
        None => &[],
    }
}
