//! Laws of the files of an extraction, for the crates above. The functions do nothing: their contracts are the laws.

ghost use Rattle.extract_rewrite_files.specs.Accepted.{AcceptedFilesAreNew};
ghost use Rattle.extract_rewrite_files.specs.Behind.{FunctionsReadBehind, FunctionsStandBehind, TemplatesAreParts};
ghost use Rattle.extract_rewrite_files.specs.Levels.{NewFilesHaveTrees};
ghost use Rattle.extract_rewrite_files.specs.NewFiles.{FilesBecomeNew};
ghost use Rattle.extract_rewrite_files.specs.Signatures.{FilesHaveFronts, SignaturesAreShallow};

use escape_check::laws::unrefused_windows_are_apart;
use extract_files::laws::{
    called_files_have_one_tree, extracted_files_are_rewritten, extracted_functions_read,
    extracted_functions_stand, functions_may_be_appended,
};
use extract_rewrite::laws::{edits_can_be_done, other_bytes_stay};
use extract_texts::laws::fresh_names_are_enough;
use go_function_places::laws::functions_have_places;
use go_rewriting::laws::{changed_sites_keep_a_depth, items_stand, subtrees_stand, texts_end_well};
use go_tokens::laws::one_lexing;

/// The template of an extraction is a part of the characters of its file: a run of statements, with expressions in it at the places of the
/// holes that are parameters, each under a fresh name. Its statements have at most 98 levels, as they have had in their file; so the new
/// function has at most 100 levels where its signature has at most 99.
pub fn templates_are_parts()
    ensures { TemplatesAreParts }
{
    changed_sites_keep_a_depth();
    fresh_names_are_enough();
    functions_have_places();
    items_stand();
    subtrees_stand();
    texts_end_well();
}

/// So the new function is a declaration that may stand behind the template's file, where its header and its names can be written and its
/// signature has at most 99 levels.
pub fn functions_stand_behind()
    ensures { FunctionsStandBehind }
{
    changed_sites_keep_a_depth();
    extracted_functions_stand();
    fresh_names_are_enough();
    functions_have_places();
    items_stand();
    subtrees_stand();
    texts_end_well();
}

/// What stands behind the template's file is read there as a declaration with this signature, whatever levels the signature has: it may have
/// more than a file may have.
pub fn functions_read_behind()
    ensures { FunctionsReadBehind }
{
    changed_sites_keep_a_depth();
    extracted_functions_read();
    fresh_names_are_enough();
    functions_have_places();
    items_stand();
    subtrees_stand();
    texts_end_well();
}

/// Each file of a package that type-checks becomes a rewriting of itself by an extraction that no code from 3 to 16 refuses: the edits give
/// it the bytes that it had, with the call of each member whose window it has in place of that window, and the function behind the
/// template's file; and these bytes have one lexing and one derivation over all their tokens.
///
/// A caller gives that the windows stand in the trees of their files and that the calls can be written; for the template's file also what
/// stands behind it (`functions_stand_behind`). A file without members has no windows, and stays as it is.
pub fn files_become_new()
    ensures { FilesBecomeNew }
{
    called_files_have_one_tree();
    edits_can_be_done();
    extracted_files_are_rewritten();
    functions_have_places();
    items_stand();
    other_bytes_stay();
    subtrees_stand();
    texts_end_well();
    unrefused_windows_are_apart();
}

/// Where the new package is within the limits, as an extraction is that isn't refused, the one derivation of each new file is its tree, of at
/// most 100 levels above any node.
pub fn new_files_have_trees()
    ensures { NewFilesHaveTrees }
{
    one_lexing();
}

/// So each file is new behind the edits of an extraction that is accepted, as the answer of `extract` is, and its one derivation is its
/// tree, within the limit on levels.
pub fn accepted_files_are_new()
    ensures { AcceptedFilesAreNew }
{
    files_become_new();
    new_files_have_trees();
}

/// The bytes of each file behind the edits are those of the file with its calls, which have one lexing and one derivation over all their tokens,
/// and what is appended to it, whether that can be read or not.
pub fn files_have_fronts()
    ensures { FilesHaveFronts }
{
    called_files_have_one_tree();
    edits_can_be_done();
    extracted_files_are_rewritten();
    functions_have_places();
    items_stand();
    other_bytes_stay();
    subtrees_stand();
    texts_end_well();
    unrefused_windows_are_apart();
}

/// Behind an extraction that is accepted the signature of the new function has at most 99 levels: with more, the one derivation of the
/// template's new file would have more than a file may have, and the code 17 would refuse the extraction.
pub fn signatures_are_shallow()
    ensures { SignaturesAreShallow }
{
    files_have_fronts();
    functions_may_be_appended();
    functions_read_behind();
    one_lexing();
}
