//! Whether what names stand for has types of a table.

ghost use Rattle.std.specs.Prelude.{◌≡◌, ℕ, ◌<◌, IsTrue, Some, length, slice_get};
ghost use Rattle.go_typed.specs.Trees as trees;
ghost use Rattle.go_typed.specs.Trees.{SortHas};
ghost use Rattle.go_typed.specs.Views.{KnownSort};
ghost use Rattle.go_exprs.specs.Contexts.{KnownContext};
ghost use Rattle.go_exprs.specs.Expressions.{KnownNames};

use go_exprs::Context;
use go_typed::{Env, Locals, Sort};
use go_types::Types;

/// Whether the types of what a name stands for are of the table.
fn is_known(types: &Types, sort: &Sort) -> bool
    ensures { IsTrue result → KnownSort (length types.now.shapes) sort.now }
{
    match sort {
        Sort::Type(of) => *of < types.count(),
        Sort::Value(of) => *of < types.count(),
        Sort::Constant(of, _) => of.id() < types.count(),
        Sort::Results(of) => *of < types.count(),
        _ => true,
    }
}

/// Whether the types of what the object of this number stands for are of the table.
fn object_known(types: &Types, env: &Env, number: usize) -> bool
    ensures { IsTrue result → (x : trees.Sort ℕ) → slice_get env.now.objects number ≡ Some x → SortHas (λ t. t < length types.now.shapes) x }
{
    match env.sort(number) {
        Some(sort) => is_known(types, sort),
        None => true,
    }
}

fn objects_known(types: &Types, env: &Env) -> bool
    ensures { IsTrue result → (k : ℕ) (x : trees.Sort ℕ) → slice_get env.now.objects k ≡ Some x → SortHas (λ t. t < length types.now.shapes) x }
{
    let mut number = 0;
    while number < env.count() {
        if !object_known(types, env, number) {
            return false;
        }
        number += 1;
    }
    true
}

/// Whether the types of what the local of this number stands for are of the table.
fn local_known(types: &Types, locals: &Locals, number: usize) -> bool
    ensures { IsTrue result → (x : trees.Sort ℕ) → slice_get locals.now.sorts number ≡ Some (Some x) → SortHas (λ t. t < length types.now.shapes) x }
{
    match locals.sort(number) {
        Some(sort) => is_known(types, sort),
        None => true,
    }
}

fn locals_known(types: &Types, locals: &Locals) -> bool
    ensures { IsTrue result → (k : ℕ) (x : trees.Sort ℕ) → slice_get locals.now.sorts k ≡ Some (Some x) → SortHas (λ t. t < length types.now.shapes) x }
{
    let mut number = 0;
    while number < locals.count() {
        if !local_known(types, locals, number) {
            return false;
        }
        number += 1;
    }
    true
}

/// Whether the types of what the names of an expression stand for are of the table.
pub fn are_known(types: &Types, env: &Env, locals: &Locals) -> bool
    ensures { IsTrue result → KnownNames (length types.now.shapes) env.now locals.now }
{
    objects_known(types, env) && locals_known(types, locals)
}

/// Whether the type that a context wants is of the table.
pub fn is_in_table(types: &Types, context: Context) -> bool
    ensures { IsTrue result → KnownContext (length types.now.shapes) context }
{
    match context {
        Context::Wanted(of) => of < types.count(),
        _ => true,
    }
}
