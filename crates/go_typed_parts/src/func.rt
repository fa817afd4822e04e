//! Functions with their types.
ghost use Rattle.std.specs.Prelude.{◌≡◌, IfOk, IsTrue, map};
ghost use Rattle.go_typed_parts.specs.Standing.{StandsOver};
ghost use Rattle.go_typed.specs.Views.{sort_view};

use crate::tests::{are_below, is_function, is_tiled, is_whole, name_below};
use go_base::Memory;
use go_typed::{NamedLocal, Sort, TypedFunc, TypedNode};
use go_types::TypeId;
use std::alloc::Global;

/// Whether the tree stands over all tokens of a function.
#[tactic(auto, using(crate::proofs::Opened::form_opened, crate::proofs::Opened::first_opened, crate::proofs::Opened::last_opened))]
fn stands_over(tokens: &[NamedLocal], root: &TypedNode) -> bool
    ensures { IsTrue result → StandsOver tokens.now root.now }
{
    is_function(root.form)
        && root.first == 0
        && root.last as usize == tokens.len()
        && root.size() < 1 << 32
        && is_tiled(root)
        && is_whole(tokens, root)
}

/// The function of this number and type, with its locals: which of them each parameter is and each token names, and what they
/// stand for.
///
/// # Errors
///
/// Want of memory; or what it is given is no typed function, which no caller does that has typed one.
pub fn typed_func(
    alloc: Global,
    number: u32,
    signature: TypeId,
    parameters: Vec<Option<u32>>,
    locals: Vec<Sort>,
    tokens: Vec<NamedLocal>,
    root: TypedNode,
) -> Result<TypedFunc, Memory>
    ensures { IfOk result (λ f. f ≡ record { number = number; signature = signature; parameters = parameters.items; locals = map sort_view locals.items; tokens = tokens.items; root = root }) }
{
    let count = locals.len();
    if !stands_over(&tokens, &root)
        || !are_below(count, &parameters)
        || !name_below(count, &tokens)
    {
        return Err(Memory);
    }
    TypedFunc::new(alloc, number, signature, parameters, locals, tokens, root)
}
