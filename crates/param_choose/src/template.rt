//! What is read of a window's function.

ghost use Rattle.std.specs.Prelude.{◌≡◌, slice_get};
ghost use Rattle.go_tree.specs.Uses.{functions_among};
ghost use Rattle.go_typed.specs.Views.{views};
ghost use Rattle.clone_window.specs.Spans.{last_from};
ghost use Rattle.param_choose.specs.Members as specs;
ghost use Rattle.param_choose.specs.Members.{first_token, locals_there};

use crate::variables::Extent;
use clone_window::span::last_from;
use go_tree::context::Entity;
use go_tree::object::Declared;
use go_tree::uses::Uses;
use go_typed::node::TypedNode;

/// Where the locals of a function are declared; nothing where there is no such function.
pub fn declared_in(uses: &Uses, function: u32) -> &[Declared]
    ensures { result.now ≡ locals_there (slice_get uses.now.locals function) }
{
    match uses.locals(function as usize) {
        Some(locals) => locals,
        None => &[],
    }
}

/// Where statements of a function stand, the first of which has a number among the nodes of the function.
pub fn extent_of(uses: &Uses, function: u32, statements: &[Option<TypedNode>], start: u32) -> Extent
    ensures first { result.first ≡ first_token (slice_get (functions_among uses.now.package_level) function) }
    ensures from { result.from ≡ specs.first_in (views statements.now) }
    ensures upto { result.upto ≡ last_from 0 (views statements.now) }
    ensures start { result.start ≡ start }
{
    Extent {
        first: first_token(uses, function),
        from: first_in(statements),
        upto: last_from(0, statements),
        start,
    }
}

/// The first token of statements; 0 where the first one is not there.
fn first_in(statements: &[Option<TypedNode>]) -> u32
    ensures { result ≡ specs.first_in (views statements.now) }
{
    match statements {
        [Some(first), ..] => first.first,
        _ => 0,
    }
}

/// The number of a function's first token in its file: a function is named behind it (Go specification: Function declarations).
fn first_token(uses: &Uses, function: u32) -> u32
    ensures { result ≡ first_token (slice_get (functions_among uses.now.package_level) function) }
{
    match function_at(uses.package_objects(), function) {
        Some(declared) => declared.name.saturating_sub(1),
        None => 0,
    }
}

/// The function of this number among objects, if there are so many.
pub fn function_at(objects: &[Declared], number: u32) -> Option<Declared>
    ensures { result ≡ slice_get (functions_among objects.now) number }
{
    let mut left = number;
    for object in objects {
        if matches!(object.entity, Entity::Function) {
            if left == 0 {
                return Some(*object);
            }
            left -= 1;
        }
    }
    None
}
