//! What is known before a part of a node.
ghost use Rattle.std.specs.Prelude.{◌≡◌, List, ℕ, IfOk, IfSome, OnOk, length, map};
ghost use Rattle.std.specs.Option.{option_map};
ghost use Rattle.go_tree.specs.Views.{view};
ghost use Rattle.go_typed.specs.Views.{seen, AllKnown};
ghost use Rattle.go_exprs_engine.specs.Literals.{AllRead};
ghost use Rattle.go_typed.specs.declared.sort.Sort as program;
ghost use Rattle.go_typed.specs.Scopes.{KnownLocals};
ghost use Rattle.go_exprs_rules.specs.Seen.{AreBasics};
ghost use Rattle.go_stmts_defs.specs.Frames.{Frame};
ghost use Rattle.go_stmts_defs.specs.Reading.{source_kept, in_constants, in_switch, in_function, entering};
ghost use Rattle.go_stmts.specs.declared.state.Surroundings as surroundings;
ghost use Rattle.go_stmts.specs.declared.state.State as states;
ghost use Rattle.go_stmts.specs.Signatures.{results_or};
ghost use Rattle.go_stmts.specs.State.{Shows, KnownState};

use crate::parameters::entry_names;
use crate::signature_parts::{declare_parameters, entry_types, parameters, signature_results};
use crate::state::State;
use crate::tag::tag_behind;
use go_base::Memory;
use go_exprs_rules::Basics;
use go_grammar::kind::{Kind, Sort as Declared};
use go_tree::node::Node;
use go_typed::{Sort, TypedNode};
use go_types::{TypeIds, Types};
use std::alloc::Global;

/// A number of parts, in 32 bits.
fn numbered(count: usize) -> Result<u32, Memory>
    ensures { IfOk result (λ n. n ≡ count) }
{
    if count < 1 << 32 {
        Ok(count as u32)
    } else {
        Err(Memory)
    }
}

/// The first specification of a group repeats nothing.
fn source_kept<'a>(
    types: &Types,
    parts: &[Option<TypedNode>],
    source: Option<&'a Node>,
) -> Option<&'a Node>
    ensures frame { (s : Frame) → s.source ≡ option_map (λ n. view n.now) source.entry → source_kept (map (option_map (seen types.now)) parts.now) s ≡ record s { source = option_map (λ n. view n.now) result } }
    ensures read { (texts : ℕ → List ℕ) → IfSome source.entry (λ n. AllRead texts (view n.now)) → IfSome result (λ n. AllRead texts (view n.now)) }
{
    let _types = types;
    match parts {
        [] => None,
        [_, ..] => source,
    }
}

/// `iota` counts the specifications of a group, and the first one repeats nothing (Go specification: Constant declarations, Iota).
fn enter_constants(
    types: &Types,
    state: &mut State<'_>,
    parts: &[Option<TypedNode>],
) -> Result<(), Memory>
    ensures frame { (o : surroundings.Surroundings) (x : program.Sort) (rs : List ℕ) (s : Frame) → Shows types.now o state.old x rs s →
        OnOk result (Shows types.now o state.new x rs (in_constants (map (option_map (seen types.now)) parts.now) s)) }
    ensures known { (o : surroundings.Surroundings) (x : program.Sort) (rs : List ℕ) → KnownState types.now o state.old x rs → OnOk result (KnownState types.now o state.new x rs) }
{
    let iota = numbered(parts.len())?;
    state.source = source_kept(types, parts, state.source);
    state.locals.set_iota(iota);
    Ok(())
}

/// Behind its header a switch has a tag.
fn enter_switch(
    types: &Types,
    basics: Basics,
    tag: &mut Sort,
    parts: &[Option<TypedNode>],
) -> Result<(), Memory>
    requires basics { AreBasics types.now basics }
    requires parts { AllKnown (length types.now.shapes) parts.now }
    ensures frame { (o : surroundings.Surroundings) (k : states.State) (rs : List ℕ) (s : Frame) → Shows types.now o k tag.old rs s →
        OnOk result (Shows types.now o k tag.new rs (in_switch (map (option_map (seen types.now)) parts.now) s)) }
    ensures known { (o : surroundings.Surroundings) (k : states.State) (rs : List ℕ) → KnownState types.now o k tag.old rs → OnOk result (KnownState types.now o k tag.new rs) }
{
    if let [header] = parts {
        *tag = tag_behind(types, basics, header)?;
    }
    Ok(())
}

/// Behind its signature a function has its parameters and its results.
fn enter_function(
    alloc: Global,
    types: &Types,
    state: &mut State<'_>,
    results: &mut Option<TypeIds>,
    parts: &[Option<TypedNode>],
) -> Result<(), Memory>
    requires locals { KnownLocals (length types.now.shapes) state.old.locals }
    requires parts { AllKnown (length types.now.shapes) parts.now }
    ensures frame { (o : surroundings.Surroundings) (x : program.Sort) (rs : List ℕ) (s : Frame) → Shows types.now o state.old x (results_or results.old rs) s →
        OnOk result (Shows types.now o state.new x (results_or results.new rs) (in_function (map (option_map (seen types.now)) parts.now) s)) }
    ensures known { (o : surroundings.Surroundings) (x : program.Sort) (rs : List ℕ) → KnownState types.now o state.old x (results_or results.old rs) → OnOk result (KnownState types.now o state.new x (results_or results.new rs)) }
{
    let [signature] = parts else {
        return Ok(());
    };
    let entries = parameters(types, signature);
    let names = entry_names(alloc, types, entries)?;
    let of = entry_types(alloc, types, entries)?;
    let own = Vec::from_slice(alloc, signature_results(types, signature))?;
    declare_parameters(types, &mut state.locals, &names, &of);
    *results = Some(TypeIds::of(own));
    Ok(())
}

/// What is known before the part of a node of the kind behind these parts.
///
/// # Errors
///
/// Want of memory.
pub fn enter(
    alloc: Global,
    types: &Types,
    basics: Basics,
    state: &mut State<'_>,
    tag: &mut Sort,
    results: &mut Option<TypeIds>,
    kind: Kind,
    parts: &[Option<TypedNode>],
) -> Result<(), Memory>
    requires basics { AreBasics types.now basics }
    requires locals { KnownLocals (length types.now.shapes) state.old.locals }
    requires parts { AllKnown (length types.now.shapes) parts.now }
    ensures frame { (o : surroundings.Surroundings) (rs : List ℕ) (s : Frame) → Shows types.now o state.old tag.old (results_or results.old rs) s →
        OnOk result (Shows types.now o state.new tag.new (results_or results.new rs) (entering kind (map (option_map (seen types.now)) parts.now) s)) }
    ensures known { (o : surroundings.Surroundings) (rs : List ℕ) → KnownState types.now o state.old tag.old (results_or results.old rs) → OnOk result (KnownState types.now o state.new tag.new (results_or results.new rs)) }
{
    match kind {
        Kind::Declaration(Declared::Constant) => enter_constants(types, state, parts),
        Kind::Group(Declared::Constant) => enter_constants(types, state, parts),
        Kind::Switch => enter_switch(types, basics, tag, parts),
        Kind::FunctionDeclaration => enter_function(alloc, types, state, results, parts),
        _ => Ok(()),
    }
}
