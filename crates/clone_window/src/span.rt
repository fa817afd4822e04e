//! The bytes of a window.

ghost use Rattle.std.specs.Prelude.{◌≡◌, ◌++◌, map, slice_get, unwrap_or, IfOk, OnOk};
ghost use Rattle.std.specs.Option.{option_map, option_to_list};
ghost use Rattle.go_grammar.specs.Trees as trees;
ghost use Rattle.go_tree.specs.Lists.{functions};
ghost use Rattle.go_tree.specs.Spans.{span_at};
ghost use Rattle.go_tree.specs.Views as tree;
ghost use Rattle.go_typed.specs.Views.{views};
ghost use Rattle.clone_window.specs.Spans.{bytes_of, joined, last_from, nowhere, place_at, places_from, starts_here, range_over, sought, span_over, span_there, window_range, window_span};
ghost use Rattle.clone_window.specs.Shown.{range_view};

use crate::run::statements;
use go_base::Span;
use go_grammar::kind::Kind;
use go_tree::file::File;
use go_tree::node::Node;
use go_typed::checked::Checked;
use go_typed::func::TypedFunc;
use go_typed::node::TypedNode;
use go_typed::window::Window;
use std::alloc::{AllocError, Global};

/// Where a function stands (Go specification: Function declarations).
#[derive(Clone, Copy, Debug, PartialEq, Eq)]
pub struct FunctionPlace {
    /// The number of its file.
    pub file: usize,
    /// The number of its first token in the file.
    pub first: u32,
}

/// Tokens of a function, counted from its first one.
#[derive(Clone, Copy, Debug, PartialEq, Eq)]
pub struct TokenRange {
    /// The number of the first one.
    pub from: u32,
    /// The number of the one behind the last.
    pub to: u32,
}

/// The bytes of a window of a package: from the first byte of its first statement to the last one of its last statement. A window
/// that the package doesn't have has none, at the start of the first file. It costs the way to the statement list and the
/// declarations in front of the function.
pub fn span_of(checked: &Checked, window: Window) -> Span
    ensures { bytes_of result ≡ unwrap_or (window_span checked.now window) nowhere }
{
    match found_span(checked, window) {
        Some(span) => span,
        None => Span {
            file: 0,
            start: 0,
            end: 0,
        },
    }
}

/// The bytes of a window, if the package has it.
fn found_span(checked: &Checked, window: Window) -> Option<Span>
    ensures { option_map bytes_of result ≡ window_span checked.now window }
{
    let f = checked.function(window.func)?;
    let range = range_of(f, &window)?;
    let place = function_place(checked.files(), window.func)?;
    span_at_place(checked.files(), place, range)
}

/// The tokens of a window of a function; none where the function has no such window.
pub fn range_of(f: &TypedFunc, window: &Window) -> Option<TokenRange>
    ensures { option_map range_view result ≡ window_range f.now window.now }
{
    range_over(statements(f, window))
}

/// The tokens of statements.
fn range_over(statements: &[Option<TypedNode>]) -> Option<TokenRange>
    ensures { option_map range_view result ≡ range_over (views statements.now) }
{
    match statements {
        [Some(first), others @ ..] => Some(TokenRange {
            from: first.first,
            to: last_from(first.last, others),
        }),
        _ => None,
    }
}

/// The number of the token behind the last of some parts, or this one where there are none.
pub fn last_from(last: u32, parts: &[Option<TypedNode>]) -> u32
    ensures { result ≡ last_from last (views parts.now) }
{
    let mut last = last;
    for part in parts {
        if let Some(node) = part {
            last = node.last;
        }
    }
    last
}

/// Where the function of this number stands among files in order, if there are so many.
pub fn function_place(files: &[File], number: u32) -> Option<FunctionPlace>
    ensures { result ≡ slice_get (places_from 0 files.now) number }
{
    let mut left = number;
    for index in 0..files.len() {
        match nth_function(files[index].declarations(), left) {
            Ok(first) => return Some(FunctionPlace { file: index, first }),
            Err(behind) => left = behind,
        }
    }
    None
}

/// The first token of the function of this number among declarations; or, where there are not so many, how many are left to
/// count behind them.
fn nth_function(declarations: &[Option<Node>], number: u32) -> Result<u32, u32>
    ensures { result ≡ sought (map trees.first (functions (tree.views declarations.now))) number }
{
    let mut left = number;
    for declaration in declarations {
        if let Some(first) = function_start(declaration) {
            if left == 0 {
                return Ok(first);
            }
            left -= 1;
        }
    }
    Err(left)
}

/// Where the functions of files stand, in order.
///
/// # Errors
///
/// Want of memory.
pub fn function_places(alloc: Global, files: &[File]) -> Result<Vec<FunctionPlace>, AllocError>
    ensures { IfOk result (λ v. v.items ≡ places_from 0 files.now) }
{
    let mut places = Vec::new(alloc);
    for index in 0..files.len() {
        push_places(index, files[index].declarations(), &mut places)?;
    }
    Ok(places)
}

/// Puts the places of the functions among the declarations of a file behind the others.
fn push_places(
    file: usize,
    declarations: &[Option<Node>],
    places: &mut Vec<FunctionPlace>,
) -> Result<(), AllocError>
    ensures { OnOk result (places.new.items ≡ places.old.items ++ map (place_at file) (map trees.first (functions (tree.views declarations.now)))) }
{
    for declaration in declarations {
        if let Some(first) = function_start(declaration) {
            places.push(FunctionPlace { file, first })?;
        }
    }
    Ok(())
}

/// The first token of a declaration that is a function.
fn function_start(declaration: &Option<Node>) -> Option<u32>
    ensures { option_to_list result ≡ starts_here declaration.now }
{
    if let Some(node) = declaration {
        if matches!(node.kind(), Kind::FunctionDeclaration) {
            return Some(node.first());
        }
    }
    None
}

/// The bytes of tokens of a function that stands at a place.
pub fn span_at_place(files: &[File], place: FunctionPlace, range: TokenRange) -> Option<Span>
    ensures { option_map bytes_of result ≡ span_there files.now (range_view range) place }
{
    let file = files.get(place.file)?;
    let first = u64::from(place.first);
    span_over(
        file,
        first + u64::from(range.from),
        first + u64::from(range.to),
    )
}

/// From the first byte of the token of one number to the last one of the token in front of another.
fn span_over(file: &File, from: u64, to: u64) -> Option<Span>
    ensures { option_map bytes_of result ≡ span_over file.now.tokens.tokens from to }
{
    let first = token_span(file, from)?;
    joined(first, token_span(file, to.saturating_sub(1))?)
}

/// From the start of the one to the end of the other, if that lies behind.
fn joined(first: Span, last: Span) -> Option<Span>
    ensures { option_map bytes_of result ≡ joined first last }
{
    if first.start <= last.end {
        Some(Span {
            file: first.file,
            start: first.start,
            end: last.end,
        })
    } else {
        None
    }
}

/// The bytes of the token of this number, if there are so many.
fn token_span(file: &File, token: u64) -> Option<Span>
    ensures { result ≡ span_at file.now.tokens.tokens token }
{
    if token < u64::from(file.count()) {
        Some(file.token_span(token as u32))
    } else {
        None
    }
}
