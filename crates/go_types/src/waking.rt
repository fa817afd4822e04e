//! How what is known of one type tells more of those that wait for it.
ghost use Rattle.std.specs.Prelude.{◌≡◌, ℕ, ◌<◌, ◌≤◌, Option, Some, None, false, IsTrue, IfSome, IfNone, length, slice_get, slice_set, count_by};
ghost use Rattle.go_types.specs.Changes.{table_of, IsKept};
ghost use Rattle.go_types.specs.Waiting.{is_for, is_stale, AreWaiting, AreWatched};
ghost use Rattle.go_types.specs.Findings.{IsStaleAt, IsVisited, visits};

use crate::finding::{Finding, find_out, known};
use crate::index::Index;
use crate::shape::TypeId;
use crate::types::Definition;
use crate::verdict::Verdict;
use crate::waits::Waits;

/// How far the types are found out about.
#[derive(Clone, Copy, Debug)]
struct Progress {
    /// At most so many types wait for one of which something is known.
    stale: u64,
    /// Near this type they are to be looked for.
    near: TypeId,
}

/// Keeps what is found out about a type, and finds out about those that wait for it, and about those
/// that wait for these.
pub fn learn(
    shapes: &Index,
    definitions: &[Option<Definition>],
    verdicts: &mut [Option<Verdict>],
    waits: &mut Waits,
    a: TypeId,
    verdict: Verdict,
)
    requires kept { IsKept shapes.now definitions.now (slice_set verdicts.old a (Some verdict)) }
    requires waiting { AreWaiting (table_of shapes.now definitions.now) (slice_set verdicts.old a (Some verdict)) waits.old }
    requires place { a < length verdicts.old }
    requires few { count_by (is_stale (slice_set verdicts.old a (Some verdict))) waits.old ≤ count_by (is_for a) waits.old }
    ensures kept { IsKept shapes.now definitions.now verdicts.new }
    ensures watched { AreWatched (table_of shapes.now definitions.now) verdicts.new waits.new }
{
    keep(verdicts, a, verdict);
    let mut progress = Progress {
        stale: waits.count(a),
        near: a,
    };
    'visits: while let Some(next) = next_stale(verdicts, waits, progress) {
        progress = visit(shapes, definitions, verdicts, waits, next, progress);
    }
}

/// Finds out about a type that waits for one of which something is known.
fn visit(
    shapes: &Index,
    definitions: &[Option<Definition>],
    verdicts: &mut [Option<Verdict>],
    waits: &mut Waits,
    a: TypeId,
    progress: Progress,
) -> Progress
    requires kept { IsKept shapes.now definitions.now verdicts.old }
    requires waiting { AreWaiting (table_of shapes.now definitions.now) verdicts.old waits.old }
    requires place { a < length verdicts.old }
    requires stale { IsStaleAt verdicts.old waits.old a }
    requires few { count_by (is_stale verdicts.old) waits.old ≤ progress.stale }
    ensures kept { IsKept shapes.now definitions.now verdicts.new }
    ensures visited { IsVisited (table_of shapes.now definitions.now) verdicts.old verdicts.new waits.new progress.stale result.stale }
{
    // The types can be counted.
    let _count = waits.len();
    if known(verdicts, a).is_some() {
        let near = waits.awaited(a).unwrap_or(progress.near);
        waits.stop(a);
        return Progress {
            stale: progress.stale.saturating_sub(1),
            near,
        };
    }
    match find_out(
        definitions,
        verdicts,
        shapes.get(a as usize),
        waits.place(a),
    ) {
        Finding::Known(verdict) => {
            keep(verdicts, a, verdict);
            Progress {
                stale: progress.stale.saturating_add(waits.count(a)),
                near: a,
            }
        }
        Finding::Waits { part, place } => {
            waits.wait(a, part, place);
            Progress {
                stale: progress.stale.saturating_sub(1),
                near: progress.near,
            }
        }
        Finding::Open => {
            waits.stop(a);
            Progress {
                stale: progress.stale.saturating_sub(1),
                near: progress.near,
            }
        }
    }
}

/// Keeps what is found out about a type.
fn keep(verdicts: &mut [Option<Verdict>], a: TypeId, verdict: Verdict)
    requires { a < length verdicts.old }
    ensures { verdicts.new ≡ slice_set verdicts.old a (Some verdict) }
{
    verdicts[a as usize] = Some(verdict);
}

/// A type that waits for one of which something is known, if there is one.
fn next_stale(verdicts: &[Option<Verdict>], waits: &mut Waits, progress: Progress) -> Option<TypeId>
    requires few { count_by (is_stale verdicts.now) waits.old ≤ progress.stale }
    ensures same { waits.new ≡ waits.old }
    ensures found { IfSome result (IsStaleAt verdicts.now waits.old) }
    ensures none { IfNone result ((i : ℕ) (o : Option ℕ) → slice_get waits.old i ≡ Some o → is_stale verdicts.now o ≡ false) }
{
    if progress.stale == 0 {
        return None;
    }
    match at_hand(verdicts, waits, progress.near) {
        Some(a) => Some(a),
        None => first_stale(verdicts, waits),
    }
}

/// Such a type that waits for this one, or this one.
fn at_hand(verdicts: &[Option<Verdict>], waits: &mut Waits, near: TypeId) -> Option<TypeId>
    ensures same { waits.new ≡ waits.old }
    ensures found { IfSome result (IsStaleAt verdicts.now waits.old) }
{
    if let Some(a) = waits.next(near)
        && is_stale(verdicts, waits, a)
    {
        return Some(a);
    }
    is_stale(verdicts, waits, near).then_some(near)
}

/// The first such type.
fn first_stale(verdicts: &[Option<Verdict>], waits: &Waits) -> Option<TypeId>
    ensures found { IfSome result (IsStaleAt verdicts.now waits.now) }
    ensures none { IfNone result ((i : ℕ) (o : Option ℕ) → slice_get waits.now i ≡ Some o → is_stale verdicts.now o ≡ false) }
{
    for a in 0..waits.len() {
        if is_stale(verdicts, waits, a) {
            return Some(a);
        }
    }
    None
}

/// Whether a type waits for one of which something is known.
fn is_stale(verdicts: &[Option<Verdict>], waits: &Waits, a: TypeId) -> bool
    ensures test { (o : Option ℕ) → slice_get waits.now a ≡ Some o → result ≡ is_stale verdicts.now o }
    ensures found { IsTrue result → IsStaleAt verdicts.now waits.now a }
{
    if a >= waits.len() {
        return false;
    }
    match waits.awaited(a) {
        Some(part) => matches!(verdicts.get(part as usize), Some(Some(_))),
        None => false,
    }
}
