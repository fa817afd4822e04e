//! Stretches of tokens, among which one that has a token is found by binary search.

ghost use Rattle.std.specs.Prelude.{◌≡◌, ◌<◌, ◌≤◌, ℕ, IfOk, drop, length, take};
ghost use Rattle.std.specs.List.{AllByRecursion, list_any};
ghost use Rattle.escape_check.specs.Stretches.{AreOrdered, covers, later, reaching};

use std::alloc::{AllocError, Global};

/// The tokens from one on up to another, which isn't among them.
#[derive(Clone, Copy)]
pub(crate) struct Stretch {
    pub from: u32,
    pub upto: u64,
}

/// The same tokens in stretches that begin in order, each of which ends no earlier than those in front of it.
pub(crate) fn ordered(alloc: Global, stretches: Vec<Stretch>) -> Result<Vec<Stretch>, AllocError>
    ensures order { IfOk result (λ v. AreOrdered v.items) }
    ensures tokens { (t : ℕ) → IfOk result (λ v. list_any (covers t) v.items ≡ list_any (covers t) stretches.items) }
{
    let mut sorted = stretches;
    sorted.sort_by_key(|stretch| stretch.from)?;
    reaching(alloc, &sorted)
}

/// Stretches that each end no earlier than those in front of them.
fn reaching(alloc: Global, stretches: &[Stretch]) -> Result<Vec<Stretch>, AllocError>
    ensures { IfOk result (λ v. v.items ≡ reaching 0 stretches.now) }
{
    let mut reach = 0;
    let mut all = Vec::with_capacity(alloc, stretches.len())?;
    for stretch in stretches {
        reach = later(reach, stretch.upto);
        all.push(Stretch {
            from: stretch.from,
            upto: reach,
        })?;
    }
    Ok(all)
}

/// The later of two ends.
fn later(a: u64, b: u64) -> u64
    ensures { result ≡ later a b }
{
    if a < b { b } else { a }
}

/// Whether one of the stretches has the token.
pub(crate) fn any_covers(stretches: &[Stretch], token: u32) -> bool
    ensures { AreOrdered stretches.now → result ≡ list_any (covers token) stretches.now }
{
    match stretches[..begun(stretches, token)].last() {
        Some(stretch) => u64::from(token) < stretch.upto,
        None => false,
    }
}

/// The number of the stretches that begin at the token or before it.
fn begun(stretches: &[Stretch], token: u32) -> usize
    ensures bound { result ≤ length stretches.now }
    ensures begun { AreOrdered stretches.now → AllByRecursion (λ s. s.from ≤ token) (take result stretches.now) }
    ensures behind { AreOrdered stretches.now → AllByRecursion (λ s. token < s.from) (drop result stretches.now) }
{
    stretches.partition_point(|stretch| stretch.from <= token)
}
