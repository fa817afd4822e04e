//! Laws of functions of which statements are taken out. The functions do nothing: their contracts are the laws.

ghost use Rattle.extract_runs.specs.Examples.{Examples};
ghost use Rattle.extract_runs.specs.Laws.{CopiedWindowsAreKin, FilledFunctionsAreKin, OneCopiesAreSame, OtherTypesRenumber};
ghost use Rattle.extract_runs.specs.PackageExamples.{PackageExamples};
ghost use Rattle.extract_runs.specs.Packages.{ExtractedTreesRunAlike};

use extract_call::laws::extracted_packages_run_alike;
use go_types_relations::laws::answers_are_renamed;

/// A function of which windows are taken out is kin to the old one: with n gaps in it, at the cost of n turns.
pub fn filled_functions_are_kin()
    ensures { FilledFunctionsAreKin }
{}

/// The copy of a window is kin to it, and so is that of a window that is the same as it.
pub fn copied_windows_are_kin()
    ensures { CopiedWindowsAreKin }
{}

/// Copies of windows that are the same have the same plans.
pub fn one_copies_are_same()
    ensures { OneCopiesAreSame }
{}

/// Plans and zero values stay where declared types have other numbers and their right sides with them.
pub fn other_types_renumber()
    ensures { OtherTypesRenumber }
{
    answers_are_renamed();
}

/// A package of which windows are taken out, tree by tree, runs as the old one does.
pub fn extracted_trees_run_alike()
    ensures { ExtractedTreesRunAlike }
{
    extracted_packages_run_alike();
}

/// A window of which all that is asked holds, and a block with a gap, worked out by hand.
pub fn examples()
    ensures { Examples }
{}

/// A package of which a window is taken out, and of which all that is asked holds, worked out by hand.
pub fn package_examples()
    ensures { PackageExamples }
{}
