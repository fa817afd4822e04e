//! Laws of the files of an extraction, for the crates above. The functions do nothing: their contracts are the laws.

ghost use Rattle.extract_files.specs.Enclosed.{RunsAreEnclosed};
ghost use Rattle.extract_files.specs.Extracted.{ExtractedFilesAreRewritten};
ghost use Rattle.extract_files.specs.Files.{CalledFilesAreRewritten};
ghost use Rattle.extract_files.specs.Functions.{ExtractedFunctionsRead, ExtractedFunctionsStand};
ghost use Rattle.extract_files.specs.Holes.{TemplatesStand};
ghost use Rattle.extract_files.specs.Levels.{CalledFilesHaveOneTree, FilesWithoutTreesAreDeep, FunctionsMayBeAppended};

use go_function_headers::laws::functions_read;
use go_print_laws::laws::{calls_stand, functions_stand};
use go_rewriting::laws::{
    a_new_text_fits, changed_sites, clear_rewrites_agree, clear_sites_agree, items_stand,
    operands_stand_for_expressions, ranges_end_well, rewritten_text, rewritten_tokens,
    run_stands_elsewhere, statements_stand_in_both, subtrees_stand, texts_end_well,
};

/// Statements of a text with names in place of some of their expressions stand by themselves: they are a run of statements over the
/// tokens in which each of these is a name, with the tree in which it is one.
///
/// A caller gives the file's lexing and the derivation of the node that lists the statements (`subtrees_stand` has it from the file's
/// tree), and for each hole the path to it, its tokens, and that its name is one: a fresh name is. That nodes above holes agree with
/// their parts is told by kinds alone.
pub fn templates_stand()
    ensures { TemplatesStand }
{
    a_new_text_fits();
    changed_sites();
    clear_sites_agree();
    items_stand();
    operands_stand_for_expressions();
    ranges_end_well();
    run_stands_elsewhere();
    statements_stand_in_both();
    subtrees_stand();
    texts_end_well();
}

/// What stands behind the template's file is a declaration with the tree that is written down for it: its statements are those of the
/// template, with a name in place of each hole that is a parameter.
///
/// A caller gives besides that the names and types of the header can be written, that the places of the window and of its holes are
/// those of their tokens, and that the function is within the limit on levels, as a choice that isn't refused has it.
pub fn extracted_functions_stand()
    ensures { ExtractedFunctionsStand }
{
    functions_stand();
    templates_stand();
}

/// It is read there as a declaration, in which the signature stands as it is written down for it, whatever levels its types have.
///
/// A caller gives that its statements have at most 98 levels, as those of a file have them.
pub fn extracted_functions_read()
    ensures { ExtractedFunctionsRead }
{
    functions_read();
    templates_stand();
}

/// Adjoining statements of a block or a clause stand behind an opening brace, a colon or a semicolon, and in front of a semicolon or a
/// closing brace.
pub fn runs_are_enclosed()
    ensures { RunsAreEnclosed }
{}

/// A file in which calls stand in place of statements, and behind which a function may stand, is a rewriting of the file: it has the
/// tokens and the tree that the calls make of the old ones.
///
/// A caller gives the file's lexing and its tree, for each window the path to the node that lists it and its tokens, and that its call
/// can be written; and what is appended with its declaration (`extracted_functions_stand`). What stands around a window is told by the
/// grammar, and that a call joins nothing there by its letters.
pub fn called_files_are_rewritten()
    ensures { CalledFilesAreRewritten }
{
    a_new_text_fits();
    calls_stand();
    changed_sites();
    clear_rewrites_agree();
    clear_sites_agree();
    items_stand();
    operands_stand_for_expressions();
    ranges_end_well();
    run_stands_elsewhere();
    runs_are_enclosed();
    statements_stand_in_both();
    subtrees_stand();
    texts_end_well();
}

/// So is a file of an extraction, in the words of its texts: what stands at the windows of its members are their calls, and its bytes
/// are the old ones with these in place of the windows, and what is appended behind.
pub fn extracted_files_are_rewritten()
    ensures { ExtractedFilesAreRewritten }
{
    called_files_are_rewritten();
}

/// Such a file has one derivation over all its tokens, of whatever depth.
pub fn called_files_have_one_tree()
    ensures { CalledFilesHaveOneTree }
{
    called_files_are_rewritten();
    rewritten_text();
}

/// A file that has one, but none of at most 100 levels above any node, has more levels than that.
pub fn files_without_trees_are_deep()
    ensures { FilesWithoutTreesAreDeep }
{}

/// A function that is read behind a file with one derivation over all its tokens is a declaration more of it: they have one derivation, whatever
/// levels the function has, and it has two levels more than the function's signature.
pub fn functions_may_be_appended()
    ensures { FunctionsMayBeAppended }
{
    rewritten_tokens();
}
