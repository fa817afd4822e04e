//! What is known behind a node.
ghost use Rattle.std.specs.Prelude.{◌≡◌, List, ℕ, false, OnOk, length, map};
ghost use Rattle.std.specs.Option.{option_map};
ghost use Rattle.go_tree.specs.Views.{view, views};
ghost use Rattle.go_typed.specs.Trees.{list_of, parts_of};
ghost use Rattle.go_typed.specs.Views.{seen, Known};
ghost use Rattle.go_typed.specs.declared.sort.Sort as program;
ghost use Rattle.go_typed.specs.Scopes.{KnownLocals};
ghost use Rattle.go_exprs_engine.specs.Literals.{PartsRead};
ghost use Rattle.go_stmts_defs.specs.Frames.{Frame};
ghost use Rattle.go_stmts_defs.specs.Reading.{declares_all, part_source, leaving};
ghost use Rattle.go_stmts.specs.declared.state.Surroundings as surroundings;
ghost use Rattle.go_stmts.specs.Signatures.{is_type_specification};
ghost use Rattle.go_stmts.specs.State.{text_of, Shows, KnownState};

use crate::declare::declare_all;
use crate::state::State;
use go_base::Memory;
use go_grammar::kind::{Kind, Sort as Declared};
use go_stmts_parts::nodes::parts_of;
use go_tree::node::Node;
use go_typed::TypedNode;
use go_types::Types;

/// The names of a statement stand for what they take.
fn declare_names(types: &Types, state: &mut State<'_>, node: &TypedNode) -> Result<(), Memory>
    requires locals { KnownLocals (length types.now.shapes) state.old.locals }
    requires node { Known (length types.now.shapes) node.now }
    ensures frame { (o : surroundings.Surroundings) (x : program.Sort) (rs : List ℕ) (s : Frame) → Shows types.now o state.old x rs s →
        OnOk result (Shows types.now o state.new x rs (declares_all (list_of (parts_of (seen types.now node.now))) s)) }
    ensures known { (o : surroundings.Surroundings) (x : program.Sort) (rs : List ℕ) → KnownState types.now o state.old x rs → OnOk result (KnownState types.now o state.new x rs) }
{
    declare_all(types, &mut state.locals, parts_of(types, node))?;
    Ok(())
}

/// What a specification of these parts says behind its names, or what it repeats.
fn part_source<'a>(parts: &'a [Option<Node>], repeated: Option<&'a Node>) -> Option<&'a Node>
    ensures { option_map (λ n. view n.now) result ≡ part_source (views parts.now) (option_map (λ n. view n.now) repeated.entry) }
{
    match parts {
        [Some(_), Some(source)] => Some(source),
        _ => repeated,
    }
}

/// The names of a specification of constants stand for what they take, and the next one may repeat it.
fn declare_constants<'a>(
    types: &Types,
    state: &mut State<'a>,
    written: &'a [Option<Node>],
    node: &TypedNode,
) -> Result<(), Memory>
    requires locals { KnownLocals (length types.now.shapes) state.old.locals }
    requires node { Known (length types.now.shapes) node.now }
    ensures frame { (o : surroundings.Surroundings) (x : program.Sort) (rs : List ℕ) (s : Frame) → Shows types.now o state.old x rs s →
        OnOk result (Shows types.now o state.new x rs (declares_all (list_of (parts_of (seen types.now node.now))) (record s { source = part_source (views written.now) s.source }))) }
    ensures known { (o : surroundings.Surroundings) (x : program.Sort) (rs : List ℕ) → PartsRead (text_of o) (views written.now) → KnownState types.now o state.old x rs → OnOk result (KnownState types.now o state.new x rs) }
{
    state.source = part_source(written, state.source);
    declare_names(types, state, node)?;
    Ok(())
}

/// What is known behind a typed node of the kind, with its parts as they are written; a specification of a type is left otherwise.
///
/// # Errors
///
/// Want of memory.
pub fn leave<'a>(
    types: &Types,
    state: &mut State<'a>,
    kind: Kind,
    written: &'a [Option<Node>],
    node: &TypedNode,
) -> Result<(), Memory>
    requires kind { is_type_specification kind ≡ false }
    requires locals { KnownLocals (length types.now.shapes) state.old.locals }
    requires node { Known (length types.now.shapes) node.now }
    ensures frame { (o : surroundings.Surroundings) (x : program.Sort) (rs : List ℕ) (s : Frame) (i : ℕ) → Shows types.now o state.old x rs s →
        OnOk result (Shows types.now o state.new x rs (leaving kind i (views written.now) (seen types.now node.now) s)) }
    ensures known { (o : surroundings.Surroundings) (x : program.Sort) (rs : List ℕ) → PartsRead (text_of o) (views written.now) → KnownState types.now o state.old x rs → OnOk result (KnownState types.now o state.new x rs) }
{
    match kind {
        Kind::Specification(Declared::Variable) => declare_names(types, state, node),
        Kind::Specification(Declared::Constant) => declare_constants(types, state, written, node),
        Kind::Define => declare_names(types, state, node),
        Kind::DefiningRange => declare_names(types, state, node),
        _ => Ok(()),
    }
}
