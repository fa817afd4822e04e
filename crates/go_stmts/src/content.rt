//! The typed function of what was read of its body: its signature, its parameters, its locals and what its tokens name.
ghost use Rattle.std.specs.Prelude.{◌≡◌, ◌∷◌, [], None, IfOk, length, map, replicate};
ghost use Rattle.std.specs.List.{AllByRecursion};
ghost use Rattle.std.specs.Option.{option_map};
ghost use Rattle.go_types.specs.Tables.{type_of};
ghost use Rattle.go_typed.specs.Contents.{func_content};
ghost use Rattle.go_typed.specs.Scopes.{local_sort, KnownLocals};
ghost use Rattle.go_typed.specs.Views.{seen, sort_seen, sort_view, Known, KnownSort, AllKnown};
ghost use Rattle.go_exprs_rules.specs.Scopes.{Scope};
ghost use Rattle.go_stmts_defs.specs.Bodies.{numbers_from, function_read};
ghost use Rattle.go_stmts_defs.specs.Frames.{Frame, local_stands};
ghost use Rattle.go_stmts_defs.specs.Laying.{local_named};
ghost use Rattle.go_stmts_rules.specs.Seen.{locals_in};
ghost use Rattle.go_stmts.specs.State.{object_at, KnownSurroundings};
ghost use Rattle.go_stmts.specs.Bodies.{KnownFunction};

use crate::Surroundings;
use crate::beginning::local_named;
use crate::parameters::entry_names;
use crate::signature::signature_type;
use crate::signature_parts::parameters;
use go_base::Memory;
use go_typed::{Locals, NamedLocal, Sort, TypedFunc, TypedNode};
use go_typed_parts::typed_func;
use go_types::Types;
use std::alloc::Global;

/// The locals of a function before its body: none stands for anything known.
pub(crate) fn no_locals(alloc: Global, count: usize) -> Result<Locals, Memory>
    ensures { IfOk result (λ l. l ≡ record { sorts = replicate count None; iota = 0 }) }
{
    let mut sorts = Vec::new(alloc);
    for number in 0..count {
        sorts.push(None)?;
    }
    Ok(Locals::new(sorts, 0))
}

/// What a local stands for; nothing known where it was not declared.
#[tactic(auto, using(crate::proofs::Known::local_known))]
fn local_sort(types: &Types, locals: &Locals, number: usize) -> Result<Sort, Memory>
    requires { KnownLocals (length types.now.shapes) locals.now }
    ensures known { IfOk result (KnownSort (length types.now.shapes)) }
    ensures tree { IfOk result (λ s. sort_seen types.now s ≡ local_stands (locals_in types.now locals.now) number) }
{
    let _types = types;
    match locals.sort(number) {
        Some(sort) => sort.shared(),
        None => Ok(Sort::Unknown),
    }
}

/// What the locals stand for behind a body.
fn local_sorts(alloc: Global, types: &Types, locals: &Locals) -> Result<Vec<Sort>, Memory>
    requires { KnownLocals (length types.now.shapes) locals.now }
    ensures known { IfOk result (λ v. AllByRecursion (KnownSort (length types.now.shapes)) v.items) }
    ensures tree { let ls = locals_in types.now locals.now in IfOk result (λ v. map (sort_seen types.now) v.items ≡ map (local_stands ls) (numbers_from 0 (length ls))) }
{
    let mut sorts = Vec::new(alloc);
    for number in 0..locals.count() {
        let sort = local_sort(types, locals, number)?;
        sorts.push(sort)?;
    }
    Ok(sorts)
}

/// For each of the first tokens of a function, so many, the local that it names.
fn token_locals(
    alloc: Global,
    types: &Types,
    surroundings: &Surroundings<'_>,
    locals: &Locals,
    count: u32,
) -> Result<Vec<NamedLocal>, Memory>
    requires surroundings { KnownSurroundings types.now surroundings.now }
    requires locals { KnownLocals (length types.now.shapes) locals.now }
    ensures { IfOk result (λ v. v.items ≡ map (λ i. local_named (object_at surroundings.now i)) (numbers_from 0 count)) }
{
    let mut named = Vec::new(alloc);
    for token in 0..count {
        let local = NamedLocal::of(local_named(types, surroundings, locals, token))?;
        named.push(local)?;
    }
    Ok(named)
}

/// The function of this number with this signature, whose tree and locals these are behind its body, and which has so many tokens.
pub(crate) fn function_of(
    alloc: Global,
    types: &Types,
    surroundings: &Surroundings<'_>,
    number: u32,
    signature: &Option<TypedNode>,
    locals: &Locals,
    root: TypedNode,
    count: u32,
) -> Result<TypedFunc, Memory>
    requires surroundings { KnownSurroundings types.now surroundings.now }
    requires signature { AllKnown (length types.now.shapes) (signature.now ∷ []) }
    requires locals { KnownLocals (length types.now.shapes) locals.now }
    requires root { Known (length types.now.shapes) root }
    ensures known { IfOk result (KnownFunction (length types.now.shapes)) }
    ensures exact { (s : Scope) (b : Frame) → s.objects ≡ object_at surroundings.now → b.locals ≡ locals_in types.now locals.now →
        IfOk result (λ f. func_content (type_of types.now.shapes) f ≡ function_read s number count (option_map (seen types.now) signature.now) (seen types.now root) b) }
{
    let of = signature_type(types, surroundings.basics, signature);
    let parameters = entry_names(alloc, types, parameters(types, signature))?;
    let sorts = local_sorts(alloc, types, locals)?;
    let tokens = token_locals(alloc, types, surroundings, locals, count)?;
    typed_func(alloc, number, of, parameters, sorts, tokens, root)
}
