//! Laws of extractions from packages that type-check, for the crates above. The functions do nothing: their contracts are the laws.

ghost use Rattle.extract_rewrite_checked.specs.Checked.{WindowsHaveSites};
ghost use Rattle.extract_rewrite_checked.specs.Extracted.{ExtractedFilesAreNew};

use extract_rewrite_files::laws::{
    accepted_files_are_new, functions_stand_behind, signatures_are_shallow,
};
use extract_texts_written::laws::{calls_can_be_written, functions_can_be_written};
use go_function_trees::laws::windows_stand;

/// Windows of a package that type-checks, each with a statement, stand at paths of the trees of their files: their statements are adjoining
/// parts of a node, and the nodes above agree with their parts whatever stands there (`HaveSites`).
pub fn windows_have_sites()
    ensures { WindowsHaveSites }
{
    windows_stand();
}

/// The edits of an extraction that is accepted make each file of a package that type-checks a rewriting of it, with the calls at the windows
/// of its members, and the new bytes have one derivation, which is their tree.
///
/// For the template's file a caller gives that the holes of the template stand below the node of its statements. That the signature of the
/// new function is within the limit on levels is told by the limits of the new package.
pub fn extracted_files_are_new()
    ensures { ExtractedFilesAreNew }
{
    accepted_files_are_new();
    calls_can_be_written();
    functions_can_be_written();
    functions_stand_behind();
    signatures_are_shallow();
    windows_have_sites();
}
