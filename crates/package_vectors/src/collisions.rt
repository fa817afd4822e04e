//! The table `collisions`: a number, the two options, the files, in how many buckets the windows of the package lie under a hash that
//! tells none of them apart, and the listing, with `; ` for each newline but the last. It is made from that index, and by comparing
//! every window with every other.

ghost use Rattle.std.specs.Prelude.{◌≡◌, ◌≤◌};

use crate::packages::package_of;
use alpha_hash_defs::window_hash::ConstantHash;
use case_tables::table::Table;
use clone_classes::pairwise::pairwise;
use clone_replies::class_reply;
use go_base::{Memory, Steps};
use go_package_defs::CheckedPackage;
use std::alloc::Global;
use std::marker::Brand;
use std::sync::ledger::{Blank, Ledger};
use window_index::classes::classes;
use window_index::package::index_of;

pub struct Collisions;

impl Table for Collisions {
    fn name(&self) -> &'static str {
        "collisions"
    }

    fn difference(&self, alloc: Global, fields: &[&str]) -> Result<Option<String>, Memory> {
        let [_, min, mass, folder, buckets, reply, ..] = fields else {
            return Ok(Some(String::from_str(alloc, "not six fields")?));
        };
        let said = found(alloc, folder, number(min), number(mass))?;
        let wanted = format!(in alloc; "{buckets}\t{reply}")?;
        Ok(if said.as_str() == wanted.as_str() {
            None
        } else {
            Some(said)
        })
    }
}

/// The number that a text is, and 0 where it is none.
fn number(text: &str) -> u32 {
    text.parse::<u32>().unwrap_or(0)
}

/// What the table says of the package of these files.
fn found(alloc: Global, folder: &str, min: u32, mass: u32) -> Result<String, Memory> {
    match package_of(alloc, folder)? {
        Some(package) => counted::<Brand>(alloc, &package, min, mass, Blank::new(3)),
        None => Ok(String::from_str(alloc, "a fault")?),
    }
}

/// In how many buckets the windows lie, and the listing.
fn counted<L: Ledger>(
    alloc: Global,
    package: &CheckedPackage,
    min: u32,
    mass: u32,
    blank: Blank,
) -> Result<String, Memory>
    requires name { blank.name ≡ L.name }
    requires parts { blank.parts ≡ L.parts }
    requires room { 3 ≤ blank.parts }
{
    let mut steps = Steps::<L>::new(blank);
    if min < 1 || min > 32 || mass < 1 || mass > 1000 {
        return Ok(String::from_str(alloc, "an option out of range")?);
    }
    let package = package.package();
    let index = index_of(alloc, package, ConstantHash, min, mass, &mut steps)?;
    let listing = class_reply(alloc, package, &classes(alloc, package, &index)?)?;
    let pairs = pairwise(alloc, package, min, mass, &mut steps)?;
    let pairs = class_reply(alloc, package, &pairs)?;
    if pairs.as_slice() != listing.as_slice() {
        return Ok(String::from_str(alloc, "pairs have another listing")?);
    }
    written(alloc, index.buckets(), listing.as_slice())
}

/// A number, and lines with `; ` between them.
fn written(alloc: Global, buckets: u64, listing: &[u8]) -> Result<String, Memory> {
    let mut text = format!(in alloc; "{buckets}\t")?;
    let lines = match std::str::from_utf8(listing) {
        Ok(lines) => lines,
        Err(_) => "(no text)",
    };
    for (number, line) in lines.lines().enumerate() {
        if number > 0 {
            text.push_str("; ")?;
        }
        text.push_str(line)?;
    }
    Ok(text)
}
