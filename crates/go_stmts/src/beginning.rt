//! What is known where a node begins.
ghost use Rattle.std.specs.Prelude.{◌≡◌, List, ℕ, IfOk, OnOk, Some, length, slice_get};
ghost use Rattle.go_typed.specs.declared.sort.Sort as program;
ghost use Rattle.go_typed.specs.Scopes.{KnownLocals};
ghost use Rattle.go_stmts_defs.specs.Frames.{Frame};
ghost use Rattle.go_stmts_defs.specs.Laying.{local_named};
ghost use Rattle.go_stmts_defs.specs.Reading.{with_type, beginning};
ghost use Rattle.go_stmts.specs.Signatures.{number_in};
ghost use Rattle.go_stmts.specs.State.{object_at, Shows, KnownSurroundings, KnownState};

use crate::declare::declare_local;
use crate::state::{State, Surroundings, scope_of};
use go_base::Memory;
use go_exprs_rules::Hint;
use go_exprs_types::forms::name_form;
use go_grammar::kind::{Kind, Sort as Declared};
use go_typed::{Form, Locals, Sort};
use go_types::{TypeId, Types};

/// The local that the form of a declared name has, if it has one.
fn number_in(form: Form) -> Option<u32>
    ensures { result ≡ number_in form }
{
    match form {
        Form::Declared(number) => Some(number),
        _ => None,
    }
}

/// The local that a token declares, if it declares one.
pub fn local_named(
    types: &Types,
    surroundings: &Surroundings<'_>,
    locals: &Locals,
    token: u32,
) -> Option<u32>
    requires surroundings { KnownSurroundings types.now surroundings.now }
    requires locals { KnownLocals (length types.now.shapes) locals.now }
    ensures { result ≡ local_named (object_at surroundings.now token) }
{
    let scope = scope_of(surroundings, locals);
    number_in(name_form(types, &scope, Hint::Declares, token))
}

/// The declared type that a local is.
///
/// # Errors
///
/// `Memory` where it is none, which no resolved name of a type is.
pub fn own_type(surroundings: &Surroundings<'_>, number: u32) -> Result<TypeId, Memory>
    ensures { IfOk result (λ i. slice_get surroundings.now.types.now number ≡ Some (Some i)) }
{
    match surroundings.types.get(number as usize) {
        Some(Some(of)) => Ok(*of),
        _ => Err(Memory),
    }
}

/// A local type stands for itself from its name on (Go specification: Declarations and scope).
fn declare_type(
    types: &Types,
    surroundings: &Surroundings<'_>,
    state: &mut State<'_>,
    token: u32,
) -> Result<(), Memory>
    requires surroundings { KnownSurroundings types.now surroundings.now }
    requires locals { KnownLocals (length types.now.shapes) state.old.locals }
    ensures frame { (x : program.Sort) (rs : List ℕ) (s : Frame) → Shows types.now surroundings.now state.old x rs s →
        OnOk result (Shows types.now surroundings.now state.new x rs (with_type (local_named (object_at surroundings.now token)) s)) }
    ensures known { (x : program.Sort) (rs : List ℕ) → KnownState types.now surroundings.now state.old x rs → OnOk result (KnownState types.now surroundings.now state.new x rs) }
{
    let Some(number) = local_named(types, surroundings, &state.locals, token) else {
        return Ok(());
    };
    let of = own_type(surroundings, number)?;
    declare_local(types, &mut state.locals, number, Sort::Type(of));
    Ok(())
}

/// What is known where a node of the kind begins with this token.
///
/// # Errors
///
/// `Memory`, also where a local that is declared as a type isn't one.
pub fn begin(
    types: &Types,
    surroundings: &Surroundings<'_>,
    state: &mut State<'_>,
    kind: Kind,
    token: u32,
) -> Result<(), Memory>
    requires surroundings { KnownSurroundings types.now surroundings.now }
    requires locals { KnownLocals (length types.now.shapes) state.old.locals }
    ensures frame { (x : program.Sort) (rs : List ℕ) (s : Frame) → Shows types.now surroundings.now state.old x rs s →
        OnOk result (Shows types.now surroundings.now state.new x rs (beginning kind token s)) }
    ensures known { (x : program.Sort) (rs : List ℕ) → KnownState types.now surroundings.now state.old x rs → OnOk result (KnownState types.now surroundings.now state.new x rs) }
{
    match kind {
        Kind::Specification(Declared::Type) => declare_type(types, surroundings, state, token),
        _ => Ok(()),
    }
}
