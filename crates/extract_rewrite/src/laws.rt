//! Laws of edits, for the crates above. The functions do nothing: their contracts are the laws.

ghost use Rattle.std.specs.Prelude.{◌≤◌, List};
ghost use Rattle.std.specs.List.{AllByRecursion};
ghost use Rattle.go_base.specs.declared.bytes.FileText.{FileText};
ghost use Rattle.go_base.specs.Package.{most_bytes, total_bytes};
ghost use Rattle.edit_apply.specs.declared.edits.Edit.{Edit};
ghost use Rattle.edit_apply.specs.Applied.{AreApplicable, IsInRange, applied};
ghost use Rattle.extract_rewrite.specs.Apart.{AllApart};
ghost use Rattle.extract_rewrite.specs.Examples.{Examples};
ghost use Rattle.extract_rewrite.specs.Limits.{AreApartFromOthers};
ghost use Rattle.extract_rewrite.specs.Order.{from_the_end};
ghost use Rattle.extract_rewrite.specs.Ready.{EditsCanBeDone};
ghost use Rattle.extract_rewrite.specs.Renewed.{OtherBytesStay};
ghost use Rattle.extract_rewrite.specs.Sites.{CallsStandAtWindows, NewFunctionsStand};
ghost use Rattle.extract_rewrite.specs.Windows.{WindowsOfFunctionsAreApart};

use escape_check::laws::unrefused_windows_are_apart;
use go_function_places::laws::functions_have_places;
use go_grammar::laws::one_tree_of_a_file;
use go_print_laws::laws::{calls_stand, functions_stand};
use go_tokens::laws::one_lexing;

/// Edits of ranges that don't overlap, from the end of each file to its start, may be done one after the other, unless there are too
/// many bytes then.
pub fn edits_apply()
    ensures { (files : List FileText) (es : List Edit) → AllByRecursion (IsInRange files) es → AllApart es
        → total_bytes (applied files (from_the_end es)) ≤ most_bytes → AreApplicable files (from_the_end es) }
{}

/// The edits that take windows of a package that type-checks out into a function may be done one after the other, where no lesser code
/// applies to the windows: they lie in their files and don't overlap.
pub fn edits_can_be_done()
    ensures { EditsCanBeDone }
{
    functions_have_places();
    unrefused_windows_are_apart();
}

/// A file has the same bytes behind edits of ranges that don't overlap as before, but for the ranges, in place of which the texts
/// stand.
pub fn other_bytes_stay()
    ensures { OtherBytesStay }
{}

/// Where windows are not refused, those of one function are replaced at ranges that don't overlap, if they have tokens of its file.
pub fn windows_of_functions_are_apart()
    ensures { WindowsOfFunctionsAreApart }
{
    unrefused_windows_are_apart();
}

/// What stands at a window is a run of statements with the trees that are written down for it, where all that it names has names and
/// its types and constants can be written.
pub fn calls_stand_at_windows()
    ensures { CallsStandAtWindows }
{
    calls_stand();
}

/// What stands behind the template's file is a declaration with the tree that is written down for it, where the template's text, with
/// names in place of constants, is a run of statements.
pub fn new_functions_stand()
    ensures { NewFunctionsStand }
{
    functions_stand();
}

/// A package that is within the limits passes none of them.
pub fn packages_within_limits_pass_none()
    ensures { AreApartFromOthers }
{
    one_lexing();
    one_tree_of_a_file();
}

/// Edits and counts of small packages, worked out by hand.
pub fn examples()
    ensures { Examples }
{}
