//! The local names of the blocks around a place of a file.

ghost use Rattle.std.specs.Prelude.{true, false, ◌≡◌, ◌≤◌, ℕ, ◌-◌, List, [], OnOk, length, slice_get};
ghost use Rattle.std.specs.Option.{option_map};
ghost use Rattle.std.specs.Borrow.{Bor};
ghost use Rattle.go_tree.specs.Meanings as meanings;
ghost use Rattle.go_scopes_events.specs.Scopes.{is_local, over, scope_of};
ghost use Rattle.go_scopes_lookup.specs.Views.{meaning_view};
ghost use Rattle.go_scopes_lookup.specs.Stacks.{said_in, said, with_one, ended_by, SaysOver, AreParted, ArePartedBy};

use crate::meaning::{Meaning, lies_inside};
use go_base::Memory;
use go_tree::context::Scope;
use go_tree::object::Extent;
use indexmap::IndexMap;
use std::alloc::Global;

/// A block, with those of its names whose scopes have begun.
#[derive(Drop)]
pub struct Block<'a> {
    /// The token behind it.
    end: u32,
    names: IndexMap<&'a [u8], Meaning<'a>>,
}

impl<'a> Block<'a> {
    /// What the block says of a name at a token: nothing if it has ended.
    fn find(&self, token: u32, name: &'a [u8]) -> Option<Meaning<'a>>
        ensures { option_map meaning_view result ≡ said_in self.now token name.entry }
    {
        if token < self.end {
            self.names.get(&name).copied()
        } else {
            None
        }
    }

    /// Enters a name; a meaning that it had in the block counts no more.
    fn put(&mut self, meaning: &Meaning<'a>) -> Result<(), Memory>
        ensures end { OnOk result (self.new.end ≡ self.old.end) }
        ensures names { OnOk result ((t : ℕ) → (w : Bor (List ℕ)) → said_in self.new t w ≡ with_one self.old.end (meaning_view meaning.now) t w (said_in self.old t w)) }
    {
        self.names.insert(meaning.entry.name, *meaning)?;
        Ok(())
    }
}

/// The blocks around a place of a file that declare names, the innermost last.
#[derive(Drop)]
pub struct Scopes<'a> {
    blocks: Vec<Block<'a>>,
}

/// The scope of a local name.
pub fn scope_of(extent: Extent) -> Scope
    ensures { result ≡ scope_of extent }
{
    match extent {
        Extent::Between { scope, .. } => scope,
        Extent::Everywhere | Extent::Throughout(_) => Scope { from: 0, to: 0 },
    }
}

impl<'a> Scopes<'a> {
    /// No blocks.
    pub fn new(alloc: Global) -> Scopes<'a>
        ensures { result.blocks.items ≡ [] }
    {
        Scopes {
            blocks: Vec::new(alloc),
        }
    }

    /// What the innermost block that has the name says of it at the token.
    pub fn find(&self, token: u32, name: &'a [u8]) -> Option<Meaning<'a>>
        ensures { option_map meaning_view result ≡ said self.now.blocks.items token name.entry }
    {
        let mut left: &[Block<'a>] = &self.blocks;
        while let [rest @ .., block] = left {
            if let Some(meaning) = block.find(token, name) {
                return Some(meaning);
            }
            left = rest;
        }
        None
    }

    /// Whether the innermost block has ended in front of the token.
    fn has_ended(&self, token: u32) -> bool
        ensures { result ≡ ended_by token (slice_get self.now.blocks.items (length self.now.blocks.items - 1)) }
    {
        match self.blocks.last() {
            None => false,
            Some(block) => block.end <= token,
        }
    }

    /// Leaves the innermost blocks that have ended in front of the token.
    pub fn leave(&mut self, token: u32)
        ensures left { ended_by token (slice_get self.new.blocks.items (length self.new.blocks.items - 1)) ≡ false }
        ensures said { (t : ℕ) → (w : Bor (List ℕ)) → token ≤ t → said self.new.blocks.items t w ≡ said self.old.blocks.items t w }
        ensures parted { (ms : List meanings.Meaning) → AreParted self.old.blocks.items ms → AreParted self.new.blocks.items ms }
    {
        while self.has_ended(token) {
            self.blocks.pop();
        }
    }

    /// Enters a name into the block that ends at this token; if that isn't the innermost, into one inside it.
    fn put(&mut self, alloc: Global, end: u32, meaning: &Meaning<'a>) -> Result<(), Memory>
        ensures said { OnOk result ((t : ℕ) → (w : Bor (List ℕ)) → said self.new.blocks.items t w ≡ with_one end (meaning_view meaning.now) t w (said self.old.blocks.items t w)) }
        ensures parted { OnOk result ((ms : List meanings.Meaning) → AreParted self.old.blocks.items ms → ArePartedBy ms end → AreParted self.new.blocks.items ms) }
    {
        if let Some(block) = self.blocks.last_mut() {
            if block.end == end {
                block.put(meaning)?;
                return Ok(());
            }
        }
        let mut block = Block {
            end,
            names: IndexMap::new(alloc),
        };
        block.put(meaning)?;
        self.blocks.push(block)?;
        Ok(())
    }

    /// Enters a local name whose scope has begun: of those with equal scopes the first counts.
    pub fn enter(&mut self, alloc: Global, token: u32, meaning: &Meaning<'a>) -> Result<(), Memory>
        ensures over { OnOk result (SaysOver token (meaning_view meaning.now) self.old.blocks.items self.new.blocks.items) }
        ensures parted { OnOk result ((ms : List meanings.Meaning) → AreParted self.old.blocks.items ms → ArePartedBy ms (scope_of meaning.now.entry.now.extent).to → AreParted self.new.blocks.items ms) }
    {
        if let Some(outer) = self.find(token, meaning.entry.name) {
            if lies_inside(outer.entry.extent, meaning.entry.extent) {
                return Ok(());
            }
        }
        self.put(alloc, scope_of(meaning.entry.extent).to, meaning)
    }
}
