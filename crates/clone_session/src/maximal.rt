//! The maximal ones among the clone classes of a package, and what of its files is covered.

ghost use Rattle.std.specs.Prelude.{◌≡◌, List, IfOk};
ghost use Rattle.go_typed.specs.declared.window.Window.{Window as Member};
ghost use Rattle.go_typed.specs.Contents.{Content as Whole};
ghost use Rattle.go_package_defs.specs.Checked.{IsChecked, IsCheckedPackage, texts_of};
ghost use Rattle.clone_window.specs.declared.bounds.Bounds.{Bounds as Limits};
ghost use Rattle.clone_classes.specs.Classes.{Among};
ghost use Rattle.clone_classes.specs.Listing.{members_of};
ghost use Rattle.clone_replies.specs.Classes.{classes_in};
ghost use Rattle.clone_replies.specs.Maximal.{covered_in, maximal_reply};
ghost use Rattle.clone_report.specs.Maximal as rules;
ghost use Rattle.clone_session.specs.Maximal.{LiesInOneOf};

use crate::laws::{listings_follow_from_the_texts, reports_follow_from_the_texts};
use clone_replies::maximal_reply;
use clone_report::laws::members_lie_within_maximal_classes;
use clone_report::{covered, covered_files, maximal};
use go_base::{Bytes, Memory};
use go_typed::checked::Checked;
use go_typed::window::Class;
use std::alloc::Global;

/// The numbers of the maximal ones among the clone classes of a package that type-checks, counted from 1.
///
/// # Errors
///
/// Want of memory.
pub fn maximal_of(alloc: Global, checked: &Checked, classes: &[Class]) -> Result<Vec<u32>, Memory>
    requires package { IsCheckedPackage checked.now }
    requires classes { (bounds : Limits) × ((c : Whole) → IsChecked (texts_of checked.now) c → members_of classes.now ≡ classes_in bounds c) }
    ensures numbers { IfOk result (λ v. v.items ≡ rules.maximal (members_of classes.now)) }
    // Every member of every class lies within a member of one of these.
    ensures within { IfOk result (λ v. (class : List Member) (w : Member) → Among (members_of classes.now) class → Among class w → LiesInOneOf (members_of classes.now) v.items w) }
{
    listings_follow_from_the_texts();
    members_lie_within_maximal_classes();
    let _count = checked.types().count();
    maximal(alloc, checked, classes)
}

/// Of the statements of the file of this number, how many are covered by members of the clone classes of a package that type-checks,
/// and how many there are.
///
/// # Errors
///
/// Want of memory.
pub fn covered_of(
    alloc: Global,
    checked: &Checked,
    classes: &[Class],
    file: u32,
) -> Result<(u32, u32), Memory>
    requires { IsCheckedPackage checked.now }
    ensures { IfOk result (λ n. (bounds : Limits) (c : Whole) → IsChecked (texts_of checked.now) c → members_of classes.now ≡ classes_in bounds c → n ≡ covered_in bounds c file) }
{
    reports_follow_from_the_texts();
    covered(alloc, checked, classes, file)
}

/// The reply to `maximal` of a package that type-checks.
///
/// # Errors
///
/// Want of memory.
pub fn report_of(alloc: Global, checked: &Checked, classes: &[Class]) -> Result<Bytes, Memory>
    requires package { IsCheckedPackage checked.now }
    requires classes { (bounds : Limits) × ((c : Whole) → IsChecked (texts_of checked.now) c → members_of classes.now ≡ classes_in bounds c) }
    ensures { IfOk result (λ reply. (bounds : Limits) (c : Whole) → IsChecked (texts_of checked.now) c → members_of classes.now ≡ classes_in bounds c → reply ≡ maximal_reply bounds c) }
{
    listings_follow_from_the_texts();
    reports_follow_from_the_texts();
    let _count = checked.types().count();
    let numbers = maximal_of(alloc, checked, classes)?;
    let covered = covered_files(alloc, checked, classes)?;
    maximal_reply(alloc, checked, classes, &numbers, &covered)
}
