//! The listing of clone classes.

ghost use Rattle.std.specs.Prelude.{◌≡◌, map, IfOk};
ghost use Rattle.clone_script.specs.Listing as script;
ghost use Rattle.clone_classes.specs.Listing.{members_of};
ghost use Rattle.clone_replies.specs.Classes.{listed_package, shown_class};
ghost use Rattle.clone_replies.specs.Listing.{listing_text};

use crate::shown::{all_shown, references};
use clone_script::class_reply as script_reply;
use go_base::{Bytes, Memory};
use go_typed::checked::Checked;
use go_typed::window::Class;
use std::alloc::Global;

/// The listing of classes of a package, numbered from 1 in their order: of each its head, and a line for each member.
///
/// # Errors
///
/// Want of memory.
pub fn class_reply(alloc: Global, checked: &Checked, classes: &[Class]) -> Result<Bytes, Memory>
    ensures { IfOk result (λ reply. reply ≡ listing_text checked.now.names (map (shown_class (listed_package checked.now)) (members_of classes.now))) }
{
    let names = references(alloc, checked.names())?;
    let listed = all_shown(alloc, checked, classes)?;
    script_reply(alloc, &names, &listed)
}
