//! An index of the windows of a package.

ghost use Rattle.std.specs.Prelude.{◌≡◌, ◌≤◌, ◌<◌, ◌+◌, ◌++◌, ◌∷◌, [], ℕ, false, length, filter, take, IfOk, OnOk, OnErr};
ghost use Rattle.std.specs.List.{AllByRecursion};
ghost use Rattle.std.specs.List.Sorted.{IsPermutation};
ghost use Rattle.go_typed.specs.Packages.{PackageView as Package};
ghost use Rattle.clone_window.specs.Bodies.{bodies_of, same_in};
ghost use Rattle.clone_classes.specs.Listing.{members_of};
ghost use Rattle.alpha_hash_defs.specs.Sharing.{numbered, windows_of_func};
ghost use Rattle.window_index.specs.Buckets.{all_entered, entered, groups_in, held, is_of, is_some_left, is_two, left, without};
ghost use Rattle.window_index.specs.Counting.{group_count, rivals};
ghost use Rattle.window_index.specs.Fitting.{AreBounds, FitsPackage};
ghost use Rattle.window_index.specs.Groups.{count_at, groups_there, joined_at};

use crate::groups::Groups;
use alpha_hash_defs::window_hash::WindowHash;
use clone_window::bounds::Bounds;
use go_base::{Memory, Steps};
use go_typed::checked::Checked;
use go_typed::window::{Class, Window};
use indexmap::IndexMap;
use std::alloc::Global;
use std::marker::Model;
use std::sync::ledger::Ledger;

/// Windows of a package in groups of windows that are the same, found by a hash.
#[derive(Drop)]
pub struct Index<H> {
    hash: H,
    min: u32,
    mass: u32,
    buckets: IndexMap<u64, Groups>,
}

impl<H> Model for Index<H> {
    ghost use Rattle.window_index.specs.Fitting.{AreBounds, IndexView};

    ghost Value = { IndexView H };

    ghost view = { λ i. record { hash = i.hash; bounds = record { fewest = i.min; least = i.mass }; buckets = i.buckets.entries } };

    ghost invariant = { λ i. AreBounds (record { fewest = i.min; least = i.mass }) };
}

impl<H: WindowHash + Drop> Index<H> {
    /// An index that holds nothing, of windows of `min` to 32 statements whose mass is at least `mass`.
    pub fn new(alloc: Global, hash: H, min: u32, mass: u32) -> Index<H>
        requires some { 1 ≤ min }
        requires at_most { min ≤ 32 }
        requires heavy { 1 ≤ mass }
        requires light { mass ≤ 1000 }
        ensures { result ≡ record { hash = hash; bounds = record { fewest = min; least = mass }; buckets = [] } }
    {
        Index {
            hash,
            min,
            mass,
            buckets: IndexMap::new(alloc),
        }
    }

    /// Puts the windows of a function in, which are compared in full with one window of each group under their hashes, whatever
    /// the hash. After an error all is as before.
    ///
    /// # Errors
    ///
    /// Want of memory.
    pub fn enter<L: Ledger>(
        &mut self,
        alloc: Global,
        checked: &Checked,
        func: u32,
        steps: &mut Steps<L>,
    ) -> Result<(), Memory>
        requires fits { FitsPackage H.number checked.now self.old }
        requires absent { AllByRecursion (λ x. is_of func x.0 ≡ false) (held self.old.buckets) }
        ensures fits { OnOk result (FitsPackage H.number checked.now self.new) }
        ensures held { OnOk result (IsPermutation (held self.old.buckets ++ numbered (H.number self.old.hash checked.now) (windows_of_func self.old.bounds (bodies_of checked.now.functions) func)) (held self.new.buckets)) }
        ensures buckets { OnOk result (self.new.buckets
            ≡ all_entered (same_in checked.now) (numbered (H.number self.old.hash checked.now) (windows_of_func self.old.bounds (bodies_of checked.now.functions) func)) self.old.buckets) }
        ensures kept { self.new ≡ record self.old { buckets = self.new.buckets } }
        ensures err { OnErr result (self.new ≡ self.old) }
        ensures entered { OnOk result (steps.new.entered ≡ steps.old.entered + length (windows_of_func self.old.bounds (bodies_of checked.now.functions) func)) }
        ensures at_most { steps.new.entered ≤ steps.old.entered + length (windows_of_func self.old.bounds (bodies_of checked.now.functions) func) }
        ensures compared { steps.new.compared ≤ steps.old.compared
            + rivals (same_in checked.now) (numbered (H.number self.old.hash checked.now) (windows_of_func self.old.bounds (bodies_of checked.now.functions) func)) self.old.buckets }
        ensures checked { steps.new.checked ≡ steps.old.checked }
    {
        let hashes = self.hash.hashes(alloc, checked, func, self.min, self.mass)?;
        match put_all(&mut self.buckets, alloc, checked, &hashes, steps) {
            Ok(()) => Ok(()),
            Err(error) => {
                take_out(&mut self.buckets, func);
                Err(error)
            }
        }
    }

    /// Takes out the windows of a function. So an index that fits a package fits it afterwards.
    pub fn leave(&mut self, func: u32)
        ensures gone { self.new ≡ record self.old { buckets = left func self.old.buckets } }
        ensures fits { (p : Package) → FitsPackage H.number p self.old → FitsPackage H.number p self.new }
    {
        take_out(&mut self.buckets, func);
    }

    /// The groups of two windows or more.
    ///
    /// # Errors
    ///
    /// Want of memory.
    pub fn groups(&self, alloc: Global) -> Result<Vec<Class>, Memory>
        ensures { IfOk result (λ cs. members_of cs.items ≡ filter is_two (groups_in self.now.buckets)) }
    {
        let mut classes = Vec::new(alloc);
        push_all_classes(&self.buckets, alloc, &mut classes)?;
        Ok(classes)
    }

    /// Which runs of statements are windows.
    pub fn bounds(&self) -> Bounds
        ensures bounds { result ≡ self.now.bounds }
        ensures within { AreBounds self.now.bounds }
    {
        Bounds {
            fewest: self.min,
            least: self.mass,
        }
    }

    /// How many distinct hashes the windows have that are held.
    pub fn buckets(&self) -> u64
        ensures { result ≡ length self.now.buckets }
    {
        self.buckets.len() as u64
    }
}

/// Puts windows with their hashes in, one after the other. After an error some first ones are in.
fn put_all<L: Ledger>(
    buckets: &mut IndexMap<u64, Groups>,
    alloc: Global,
    checked: &Checked,
    hashes: &[(Window, u64)],
    steps: &mut Steps<L>,
) -> Result<(), Memory>
    ensures ok { OnOk result (buckets.new.entries ≡ all_entered (same_in checked.now) hashes.now buckets.old.entries) }
    ensures err { OnErr result ((n : ℕ) × (buckets.new.entries ≡ all_entered (same_in checked.now) (take n hashes.now) buckets.old.entries)) }
    ensures entered { OnOk result (steps.new.entered ≡ steps.old.entered + length hashes.now) }
    ensures at_most { steps.new.entered ≤ steps.old.entered + length hashes.now }
    ensures compared { steps.new.compared ≤ steps.old.compared + rivals (same_in checked.now) hashes.now buckets.old.entries }
    ensures checked { steps.new.checked ≡ steps.old.checked }
{
    for index in 0..hashes.len() {
        let (window, hash) = hashes[index];
        put(buckets, alloc, checked, window, hash, steps)?;
        steps.tick_entered();
    }
    Ok(())
}

/// Puts a window with its hash in.
fn put<L: Ledger>(
    buckets: &mut IndexMap<u64, Groups>,
    alloc: Global,
    checked: &Checked,
    window: Window,
    hash: u64,
    steps: &mut Steps<L>,
) -> Result<(), Memory>
    ensures ok { OnOk result (buckets.new.entries ≡ entered (same_in checked.now) (window, hash) buckets.old.entries) }
    ensures err { OnErr result (buckets.new.entries ≡ buckets.old.entries) }
    ensures compared { steps.new.compared ≤ steps.old.compared + group_count hash buckets.old.entries }
    ensures others { steps.new ≡ record steps.old { compared = steps.new.compared } }
{
    match buckets.get_index_of(&hash) {
        Some(number) => join_at(buckets, alloc, checked, window, number, steps),
        None => {
            let groups = Groups::of(alloc, window)?;
            buckets.insert(hash, groups)?;
            Ok(())
        }
    }
}

/// Puts a window into the bucket of this number.
fn join_at<L: Ledger>(
    buckets: &mut IndexMap<u64, Groups>,
    alloc: Global,
    checked: &Checked,
    window: Window,
    number: usize,
    steps: &mut Steps<L>,
) -> Result<(), Memory>
    requires { number < length buckets.old.entries }
    ensures ok { OnOk result (buckets.new.entries ≡ joined_at (same_in checked.now) number window buckets.old.entries) }
    ensures err { OnErr result (buckets.new.entries ≡ buckets.old.entries) }
    ensures compared { steps.new.compared ≤ steps.old.compared + count_at number buckets.old.entries }
    ensures others { steps.new ≡ record steps.old { compared = steps.new.compared } }
{
    let (_, groups) = buckets.pair_mut(number);
    groups.join(alloc, checked, window, steps)
}

/// Takes the windows of a function out of all buckets, and the buckets of which nothing is left.
fn take_out(buckets: &mut IndexMap<u64, Groups>, func: u32)
    ensures { buckets.new.entries ≡ left func buckets.old.entries }
{
    buckets.retain(
        |_hash: &u64, groups: &mut Groups| -> bool
            ensures { (groups.new ≡ without func groups.old) × (result ≡ is_some_left groups.new) }
        {
            groups.leave(func);
            groups.is_some_left()
        },
    );
}

/// Puts the groups of two windows or more of all buckets behind classes.
fn push_all_classes(
    buckets: &IndexMap<u64, Groups>,
    alloc: Global,
    classes: &mut Vec<Class>,
) -> Result<(), Memory>
    ensures { OnOk result (members_of classes.new.items ≡ members_of classes.old.items ++ filter is_two (groups_in buckets.now.entries)) }
{
    for index in 0..buckets.len() {
        push_bucket(buckets.get_index(index), alloc, classes)?;
    }
    Ok(())
}

/// Puts the groups of two windows or more of a bucket behind classes, if it is there.
fn push_bucket(
    bucket: Option<(&u64, &Groups)>,
    alloc: Global,
    classes: &mut Vec<Class>,
) -> Result<(), Memory>
    ensures { OnOk result (members_of classes.new.items ≡ members_of classes.old.items ++ filter is_two (groups_there bucket.entry)) }
{
    match bucket {
        Some((_, groups)) => groups.push_classes(alloc, classes),
        None => Ok(()),
    }
}
