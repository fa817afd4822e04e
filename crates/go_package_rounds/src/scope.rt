//! The scope of a specification.
ghost use Rattle.std.specs.Prelude.{◌≡◌, ℕ, [], Bool, List, IfOk, IfSome};
ghost use Rattle.go_types.specs.Tables.{Table, rights_of};
ghost use Rattle.go_exprs_types.specs.Naming.{names, text_in, need_seen, KnownScope};
ghost use Rattle.go_package_defs.specs.Declarations as declarations;
ghost use Rattle.go_package_defs.specs.Knowledge as knowledge;
ghost use Rattle.go_package_defs.specs.Knowledge.{State, need_in, scope_where};
ghost use Rattle.go_package_defs.specs.Sources.{tokens_in, text_at};
ghost use Rattle.go_tokens.specs.Tokens.{IsTokenList};
ghost use Rattle.go_package_rounds.specs.World.{package_in, outlines_in, Fits, StandsFor, KnownStandings};

use crate::world::World;
use go_base::Memory;
use go_exprs_types::{Needed, Scope, Standing};
use go_tokens::tokens::Tokens;
use go_tree::context::Entity;
use go_typed::Locals;
use std::alloc::Global;

/// The tokens of the file of this number, if there are so many and it has this number itself.
pub fn tokens_of<'a>(world: &World<'a>, file: usize) -> Option<&'a Tokens>
    ensures tokens { IfSome result (λ t. t.now ≡ tokens_in (package_in world.now) file) }
    ensures number { IfSome result (λ t. t.now.file ≡ file) }
    ensures list { IfSome result (λ t. IsTokenList t.now) }
{
    let tokens = world.files.get(file)?.tokens();
    tokens.count();
    if tokens.file() as usize == file {
        Some(tokens)
    } else {
        None
    }
}

/// No locals, where `iota` has this value.
///
/// # Errors
///
/// Want of memory.
pub fn locals_at(alloc: Global, iota: usize) -> Result<Locals, Memory>
    ensures { IfOk result (λ l. l ≡ record { sorts = []; iota = iota }) }
{
    let Ok(iota) = u32::try_from(iota) else {
        return Err(Memory);
    };
    Ok(Locals::new(Vec::new(alloc), iota))
}

/// How a specification needs what it names.
fn need_in(entity: Entity) -> Needed
    ensures { need_seen result ≡ need_in entity }
{
    match entity {
        Entity::Type => Needed::AtOnce,
        _ => Needed::InFull,
    }
}

/// The scope of a specification, in which the objects stand for this.
pub fn scope_in<'b>(
    world: &'b World<'b>,
    tokens: &'b Tokens,
    locals: &'b Locals,
    told: &'b [Standing],
    entity: Entity,
    limits: bool,
) -> Scope<'b>
    ensures is { (t : Table) (test : State → Bool) (ss : List State) (d : declarations.Specification) → Fits t world.now → StandsFor t world.now test told.now ss
        → rights_of t ≡ knowledge.rights_of (package_in world.now) ss → tokens.now ≡ tokens_in (package_in world.now) d.file → tokens.now.file ≡ d.file
        → locals.now ≡ record { sorts = []; iota = d.iota } → entity ≡ d.entity
        → names t result ≡ scope_where test limits (package_in world.now) (outlines_in world.now) ss d }
    ensures known { (t : Table) (n : ℕ) → Fits t world.now → locals.now.sorts ≡ [] → KnownStandings n told.now → KnownScope n result }
    ensures texts { (file : ℕ) → tokens.now ≡ tokens_in (package_in world.now) file → text_in result ≡ text_at (package_in world.now) file }
    ensures basics { result.basics ≡ world.now.basics }
{
    Scope {
        tokens,
        uses: world.uses,
        env: world.env,
        locals,
        basics: world.basics,
        told,
        needed: need_in(entity),
        limits,
        base: 0,
    }
}
