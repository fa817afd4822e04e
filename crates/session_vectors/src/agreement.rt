//! The listing of one package made in three ways: under the program's own hash, under one that tells no windows apart, and by
//! comparing every window with every other.

ghost use Rattle.std.specs.Prelude.{◌≡◌, ◌≤◌, IfOk};
ghost use Rattle.go_base.specs.Package.{IsPackage};

use alpha_hash::alpha::AlphaHash;
use alpha_hash_defs::window_hash::{ConstantHash, WindowHash};
use clone_classes::pairwise::pairwise;
use clone_program::PackageCheck;
use clone_replies::class_reply;
use clone_server::{OpenError, open_folder};
use clone_session::{Check, Session};
use go_base::{Bytes, FileText, Memory, Steps};
use go_package_defs::CheckError;
use port_io::MemFolder;
use std::alloc::Global;
use std::marker::Brand;
use std::sync::ledger::{Blank, Ledger};

/// A package in a folder, and which of its runs of statements are windows.
#[derive(Drop)]
pub struct Case {
    pub folder: MemFolder,
    pub dir: String,
    pub min: u32,
    pub mass: u32,
}

/// The three listings of a package that type-checks.
#[derive(Drop)]
pub struct Listings {
    pub own: Bytes,
    pub forced: Bytes,
    pub pairs: Bytes,
}

impl Listings {
    /// Whether they are the same.
    pub fn agree(&self) -> bool {
        self.own.as_slice() == self.forced.as_slice()
            && self.own.as_slice() == self.pairs.as_slice()
    }
}

/// The files of the package.
fn files_of(alloc: Global, case: &mut Case) -> Result<Vec<FileText>, Memory>
    ensures { IfOk result (λ v. IsPackage v.items) }
{
    open_folder(alloc, &mut case.folder, case.dir.as_str()).map_err(|_| Memory)
}

/// The listing of a package from its index under a hash; none where a fault is reported.
fn indexed<H: WindowHash + Copy + Drop, L: Ledger>(
    alloc: Global,
    files: Vec<FileText>,
    min: u32,
    mass: u32,
    hash: H,
    steps: &mut Steps<L>,
) -> Result<Option<Bytes>, Memory>
    requires package { IsPackage files.items }
    requires some { 1 ≤ min }
    requires at_most { min ≤ 32 }
    requires heavy { 1 ≤ mass }
    requires light { mass ≤ 1000 }
{
    let mut session = Session::<PackageCheck, H>::load(alloc, files, min, mass, hash)?;
    session.refresh(steps)?;
    match session.fault() {
        Some(_) => Ok(None),
        None => Ok(Some(session.listing()?)),
    }
}

/// The listing of a package whose windows are compared, every one with every other; none where a fault is reported.
fn paired<L: Ledger>(
    alloc: Global,
    files: &[FileText],
    min: u32,
    mass: u32,
    steps: &mut Steps<L>,
) -> Result<Option<Bytes>, Memory>
    requires package { IsPackage files.now }
    requires some { 1 ≤ min }
    requires at_most { min ≤ 32 }
    requires heavy { 1 ≤ mass }
    requires light { mass ≤ 1000 }
{
    match PackageCheck::check(alloc, files) {
        Ok(package) => {
            let classes = pairwise(alloc, package.package(), min, mass, steps)?;
            Ok(Some(class_reply(alloc, package.package(), &classes)?))
        }
        Err(CheckError::Fault(_)) => Ok(None),
        Err(CheckError::Memory) => Err(Memory),
    }
}

/// The three listings under a counter of their own; none where a fault is reported.
fn counted<L: Ledger>(
    alloc: Global,
    case: &mut Case,
    blank: Blank,
) -> Result<Option<Listings>, Memory>
    requires name { blank.name ≡ L.name }
    requires parts { blank.parts ≡ L.parts }
    requires room { 3 ≤ blank.parts }
{
    let (min, mass) = (case.min, case.mass);
    if min < 1 || min > 32 || mass < 1 || mass > 1000 {
        return Err(Memory);
    }
    let mut steps = Steps::<L>::new(blank);
    let files = files_of(alloc, case)?;
    let own = indexed(alloc, files, min, mass, AlphaHash, &mut steps)?;
    let files = files_of(alloc, case)?;
    let forced = indexed(alloc, files, min, mass, ConstantHash, &mut steps)?;
    let files = files_of(alloc, case)?;
    match (own, forced, paired(alloc, &files, min, mass, &mut steps)?) {
        (Some(own), Some(forced), Some(pairs)) => Ok(Some(Listings { own, forced, pairs })),
        _ => Ok(None),
    }
}

/// The three listings; none where a fault is reported.
///
/// # Errors
///
/// Want of memory.
pub fn listed_thrice(alloc: Global, case: &mut Case) -> Result<Option<Listings>, Memory> {
    counted::<Brand>(alloc, case, Blank::new(3))
}
