//! The predeclared types that rules give, in a table.
ghost use Rattle.std.specs.Prelude.{IfOk};
ghost use Rattle.go_types.specs.Trees.{function, none};
ghost use Rattle.go_types_relations.specs.Extends.{Grows};
ghost use Rattle.go_exprs_rules.specs.Seen.{AreBasics};
ghost use Rattle.go_exprs_types.specs.Types.{IsOf, basic_tree};

use go_base::Memory;
use go_constants::Basic;
use go_exprs_rules::Basics;
use go_ints::Kind;
use go_types::{Shape, TypeId, TypeIds, Types};
use go_types_relations::intern;
use std::alloc::Global;

/// The number of a basic type.
fn basic(types: &mut Types, of: Basic) -> Result<TypeId, Memory>
    ensures grows { Grows types.old types.new }
    ensures is { IfOk result (λ i. IsOf types.new i (basic_tree of)) }
{
    match of {
        Basic::Bool => intern(types, &Shape::Bool),
        Basic::Text => intern(types, &Shape::Text),
        Basic::Int(kind) => intern(types, &Shape::Int(kind)),
    }
}

/// The numbers of two basic types.
fn pair(types: &mut Types, one: Basic, other: Basic) -> Result<(TypeId, TypeId), Memory>
    ensures grows { Grows types.old types.new }
    ensures are { IfOk result (λ p. IsOf types.new p.0 (basic_tree one) × IsOf types.new p.1 (basic_tree other)) }
{
    let first = basic(types, one)?;
    let second = basic(types, other)?;
    Ok((first, second))
}

/// The number of the type `func()`.
fn procedure(alloc: Global, types: &mut Types) -> Result<TypeId, Memory>
    ensures grows { Grows types.old types.new }
    ensures is { IfOk result (λ i. IsOf types.new i (function none none)) }
{
    let shape = Shape::Func {
        params: TypeIds::of(Vec::new(alloc)),
        results: TypeIds::of(Vec::new(alloc)),
    };
    intern(types, &shape)
}

/// The numbers of the predeclared types that rules give; the table grows by those that it lacks.
///
/// # Errors
///
/// Want of memory alone.
pub fn basics(alloc: Global, types: &mut Types) -> Result<Basics, Memory>
    ensures grows { Grows types.old types.new }
    ensures basics { IfOk result (AreBasics types.new) }
{
    let (boolean, text) = pair(types, Basic::Bool, Basic::Text)?;
    let (int, uint) = pair(types, Basic::Int(Kind::Int), Basic::Int(Kind::Uint))?;
    let (byte, rune) = pair(types, Basic::Int(Kind::Uint8), Basic::Int(Kind::Int32))?;
    let procedure = procedure(alloc, types)?;
    Ok(Basics {
        boolean,
        text,
        int,
        uint,
        byte,
        rune,
        procedure,
    })
}
