//! What types wait for of which nothing is known.
ghost use Rattle.std.specs.Prelude.{◌≡◌, ◌<◌, ◌≤◌, ◌++◌, ◌∷◌, ℕ, [], None, Some, OnOk, OnErr, IfSome, length, slice_get, slice_set, count_by, take, Option};
ghost use Rattle.go_types.specs.Waiting.{is_for, AreCounted};

use crate::shape::TypeId;
use go_base::Memory;
use std::alloc::Global;
use std::marker::Model;

/// For each type the one that it waits for, if it waits.
#[derive(Drop)]
pub struct Waits {
    /// What each type waits for.
    awaited: Vec<Option<TypeId>>,
    /// How many types wait for each one.
    counts: Vec<u64>,
    /// Where those that wait for a type are to be looked for.
    links: Vec<Link>,
}

/// A list of those that wait for a type: the first one, and the next one behind a type that waits,
/// with the place of what it waits for among its parts. The lists only say where to look.
#[derive(Clone, Copy, Debug)]
struct Link {
    first: Option<TypeId>,
    next: Option<TypeId>,
    place: usize,
}

impl Model for Waits {
    ghost use Rattle.std.specs.Prelude.{List, ℕ, Option};
    ghost use Rattle.go_types.specs.Waiting.{AreCounted};

    ghost Value = { List (Option ℕ) };

    ghost view = { λ w. w.awaited.items };

    ghost invariant = { λ w. AreCounted w.awaited.items w.counts.items };
}

impl Waits {
    /// No types.
    pub fn new(alloc: Global) -> Waits
        ensures { result ≡ [] }
    {
        Waits {
            awaited: Vec::new(alloc),
            counts: Vec::new(alloc),
            links: Vec::new(alloc),
        }
    }

    /// One more type, which doesn't wait. After `Memory` there is none more.
    pub fn push(&mut self) -> Result<(), Memory>
        ensures ok { OnOk result (self.new ≡ self.old ++ None ∷ []) }
        ensures err { OnErr result (self.new ≡ self.old) }
    {
        let count = self.awaited.len();
        self.links.truncate(count);
        self.links.push(Link {
            first: None,
            next: None,
            place: 0,
        })?;
        self.counts.push(0)?;
        match self.awaited.push(None) {
            Ok(()) => Ok(()),
            Err(_) => {
                self.counts.pop();
                Err(Memory)
            }
        }
    }

    /// How many types there are.
    pub fn len(&self) -> u64
        ensures { result ≡ length self.now }
    {
        self.awaited.len() as u64
    }

    /// What a type waits for.
    pub fn awaited(&self, a: TypeId) -> Option<TypeId>
        requires { a < length self.now }
        ensures { slice_get self.now a ≡ Some result }
    {
        self.awaited[a as usize]
    }

    /// How many types wait for this one.
    pub fn count(&self, part: TypeId) -> u64
        requires { part < length self.now }
        ensures { result ≡ count_by (is_for part) self.now }
    {
        self.counts[part as usize]
    }

    /// At which place among its parts that stands for which the type waits, or waited last.
    pub fn place(&self, a: TypeId) -> usize {
        match self.links.get(a as usize) {
            Some(link) => link.place,
            None => 0,
        }
    }

    /// The type waits no longer.
    pub fn stop(&mut self, a: TypeId)
        requires { a < length self.old }
        ensures { self.new ≡ slice_set self.old a None }
    {
        leave(&mut self.awaited, &mut self.counts, a);
    }

    /// The type waits for this one, and for no other. It stands at this place among its parts.
    pub fn wait(&mut self, a: TypeId, part: TypeId, place: usize)
        requires place { a < length self.old }
        requires part { part < length self.old }
        ensures { self.new ≡ slice_set self.old a (Some part) }
    {
        leave(&mut self.awaited, &mut self.counts, a);
        join(&mut self.awaited, &mut self.counts, a, part);
        put_first(&mut self.links, a, part, place);
    }

    /// A type that waits for this one, if one is at hand.
    pub fn next(&mut self, part: TypeId) -> Option<TypeId>
        ensures same { self.new ≡ self.old }
        ensures waits { IfSome result (λ a. slice_get self.old a ≡ Some (Some part)) }
    {
        let a = take_first(&mut self.links, part)?;
        match self.awaited.get(a as usize) {
            Some(Some(other)) if *other == part => Some(a),
            _ => None,
        }
    }

    /// Takes away the types from a number on. None of those before waits for them.
    pub fn truncate(&mut self, count: usize)
        requires within { count ≤ length self.old }
        requires closed { (i p : ℕ) → i < count → slice_get self.old i ≡ Some (Some p) → p < count }
        ensures { self.new ≡ take count self.old }
    {
        leave_from(&mut self.awaited, &mut self.counts, count);
        self.awaited.truncate(count);
        self.counts.truncate(count);
    }
}

/// A type waits no longer.
fn leave(awaited: &mut [Option<TypeId>], counts: &mut [u64], a: TypeId)
    requires counted { AreCounted awaited.old counts.old }
    requires place { a < length awaited.old }
    ensures awaited { awaited.new ≡ slice_set awaited.old a None }
    ensures counted { AreCounted awaited.new counts.new }
{
    if let Some(part) = awaited[a as usize] {
        counts[part as usize] -= 1;
        awaited[a as usize] = None;
    }
}

/// A type that doesn't wait comes to wait for another one.
fn join(awaited: &mut [Option<TypeId>], counts: &mut [u64], a: TypeId, part: TypeId)
    requires counted { AreCounted awaited.old counts.old }
    requires free { slice_get awaited.old a ≡ Some None }
    requires part { part < length awaited.old }
    ensures awaited { awaited.new ≡ slice_set awaited.old a (Some part) }
    ensures counted { AreCounted awaited.new counts.new }
{
    let _count = awaited.len();
    awaited[a as usize] = Some(part);
    counts[part as usize] += 1;
}

/// The types from a number on wait no longer.
fn leave_from(awaited: &mut [Option<TypeId>], counts: &mut [u64], count: usize)
    requires counted { AreCounted awaited.old counts.old }
    requires within { count ≤ length awaited.old }
    ensures front { take count awaited.new ≡ take count awaited.old }
    ensures free { (i : ℕ) (o : Option ℕ) → count ≤ i → slice_get awaited.new i ≡ Some o → o ≡ None }
    ensures counted { AreCounted awaited.new counts.new }
{
    for a in count..awaited.len() {
        leave(awaited, counts, a as u64);
    }
}

/// Puts a type at the front of the list of those that wait for another one.
fn put_first(links: &mut [Link], a: TypeId, part: TypeId, place: usize) {
    let first = match links.get(part as usize) {
        Some(link) => link.first,
        None => None,
    };
    if let Some(link) = links.get_mut(a as usize) {
        link.next = first;
        link.place = place;
    }
    if let Some(link) = links.get_mut(part as usize) {
        link.first = Some(a);
    }
}

/// Takes the first type out of the list of those that wait for another one.
fn take_first(links: &mut [Link], part: TypeId) -> Option<TypeId> {
    let a = links.get(part as usize)?.first?;
    let next = links.get(a as usize)?.next;
    if let Some(link) = links.get_mut(part as usize) {
        link.first = next;
    }
    Some(a)
}
