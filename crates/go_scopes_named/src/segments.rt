//! What a name means along a file as a local, cut where that changes.

ghost use Rattle.std.specs.Prelude.{◌≡◌, ◌<◌, ◌≤◌, ◌∷◌, ◌++◌, IfOk, OnOk, length, map, slice_get, take, drop};
ghost use Rattle.std.specs.List.{AllByRecursion};
ghost use Rattle.std.specs.Option.{option_map};
ghost use Rattle.std.specs.Vec.{vec_len};
ghost use Rattle.go_scopes_lookup.specs.Views.{meaning_view};
ghost use Rattle.go_scopes_named.specs.Segments.{Adds, AreRising, begins_at, closed_at, lies_in, said, segments_of};

use go_scopes_lookup::meaning::{Meaning, lies_inside};
use go_tree::context::Scope;
use std::alloc::{AllocError, Global};

/// What a name means as a local from this token of a file on, up to the next segment's.
#[derive(Clone, Copy)]
pub struct Segment<'a> {
    from: u32,
    meaning: Option<Meaning<'a>>,
}

/// The segments that were there, or none.
pub fn or_none<'a>(alloc: Global, own: Option<Vec<Segment<'a>>>) -> Vec<Segment<'a>>
    ensures { result.items ≡ segments_of own.entry }
{
    match own {
        None => Vec::new(alloc),
        Some(own) => own,
    }
}

/// The tokens at which the segments begin.
pub fn beginnings(alloc: Global, segments: &[Segment<'_>]) -> Result<Vec<u32>, AllocError>
    ensures { IfOk result (λ v. v.items ≡ map (λ s. s.from) segments.now) }
{
    let mut tokens = Vec::with_capacity(alloc, segments.len())?;
    for segment in segments {
        tokens.push(segment.from)?;
    }
    Ok(tokens)
}

/// The number of the segments that begin at the token or before it.
fn begun(segments: &[Segment<'_>], token: u32) -> usize
    ensures bound { result ≤ length segments.now }
    ensures begun { AreRising segments.now → AllByRecursion (λ s. s.from ≤ token) (take result segments.now) }
    ensures later { AreRising segments.now → AllByRecursion (λ s. token < s.from) (drop result segments.now) }
{
    segments.partition_point(|segment| segment.from <= token)
}

/// What the name means at the token, found by binary search.
pub fn said<'a>(segments: &[Segment<'a>], token: u32) -> Option<Meaning<'a>>
    ensures { AreRising segments.now → option_map meaning_view result ≡ said token segments.now }
{
    match segments[..begun(segments, token)].last() {
        None => None,
        Some(segment) => segment.meaning,
    }
}

/// Whether there is an outer meaning whose extent lies inside the other's: of equal extents the first counts.
fn lies_in(outer: Option<Meaning<'_>>, meaning: &Meaning<'_>) -> bool
    ensures { result ≡ lies_in (option_map meaning_view outer.entry) (meaning_view meaning.now) }
{
    match outer {
        None => false,
        Some(outer) => lies_inside(outer.entry.extent, meaning.entry.extent),
    }
}

/// Whether the segment of this number begins at the token.
fn begins_at(segments: &[Segment<'_>], number: usize, token: u32) -> bool
    ensures { result ≡ begins_at token (slice_get segments.now number) }
{
    match segments.get(number) {
        None => false,
        Some(segment) => segment.from == token,
    }
}

/// Has the outer meaning count again from the end of a scope on, if no segment begins there: a new segment has this number.
fn close<'a>(
    segments: &mut Vec<Segment<'a>>,
    number: usize,
    end: u32,
    outer: Option<Meaning<'a>>,
) -> Result<(), AllocError>
    requires { number ≤ vec_len segments.old }
    ensures { OnOk result (segments.new.items ≡ take number segments.old.items ++ closed_at end outer.entry (drop number segments.old.items)) }
{
    if begins_at(segments, number, end) {
        return Ok(());
    }
    let segment = Segment {
        from: end,
        meaning: outer,
    };
    segments.insert(number, segment)?;
    Ok(())
}

/// Adds a meaning whose scope lies behind those of the earlier ones, or inside them.
///
/// It moves the segments behind the scope: one at most for each block around it that declares the name.
pub fn add<'a>(
    segments: &mut Vec<Segment<'a>>,
    scope: Scope,
    meaning: &Meaning<'a>,
) -> Result<(), AllocError>
    ensures { OnOk result (Adds scope (meaning_view meaning.now) segments.old.items segments.new.items) }
{
    if scope.to <= scope.from {
        return Ok(());
    }
    let outer = said(segments, scope.from);
    if lies_in(outer, meaning) {
        return Ok(());
    }
    let number = begun(segments, scope.from);
    close(segments, number, scope.to, outer)?;
    let segment = Segment {
        from: scope.from,
        meaning: Some(*meaning),
    };
    segments.insert(number, segment)?;
    Ok(())
}
