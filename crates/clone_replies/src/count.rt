//! Counts over a package.

ghost use Rattle.std.specs.Prelude.{◌≡◌, ◌+◌, cond, length, count_by, IfOk};
ghost use Rattle.std.specs.List.{sum_by};
ghost use Rattle.go_typed.specs.Funcs.{tree_of};
ghost use Rattle.clone_replies.specs.Numbers.{has_body};

use go_base::Memory;
use go_tree::file::File;
use go_typed::func::TypedFunc;

/// How many bytes files have together. `Memory` also where these are too many.
pub fn total_bytes(files: &[File]) -> Result<u32, Memory>
    ensures { IfOk result (λ n. n ≡ sum_by (λ f. length f.tokens.text) files.now) }
{
    let mut total: u32 = 0;
    for file in files {
        total = sum(total, file.tokens().length())?;
    }
    Ok(total)
}

/// How many functions have a body. `Memory` also where these are too many.
pub fn functions_with_body(functions: &[TypedFunc]) -> Result<u32, Memory>
    ensures { IfOk result (λ n. n ≡ count_by (λ f. has_body (tree_of f)) functions.now) }
{
    let mut count: u32 = 0;
    for f in functions {
        count = sum(count, bodies(f))?;
    }
    Ok(count)
}

/// The sum. `Memory` where it is too large.
fn sum(a: u32, b: u32) -> Result<u32, Memory>
    ensures { IfOk result (λ n. n ≡ a + b) }
{
    a.checked_add(b).ok_or(Memory)
}

/// How many bodies a function has: one or none.
fn bodies(f: &TypedFunc) -> u32
    ensures { result ≡ cond (has_body (tree_of f.now)) 1 0 }
{
    if has_body(f) { 1 } else { 0 }
}

/// Whether a function has a body.
fn has_body(f: &TypedFunc) -> bool
    ensures { result ≡ has_body (tree_of f.now) }
{
    match f.root().parts.first() {
        Some(Some(_)) => true,
        _ => false,
    }
}
