//! Laws, for the crates above. The functions do nothing: their contracts are the laws.

ghost use Rattle.go_typed.specs.Contents.{content};
ghost use Rattle.go_typed.specs.Packages.{PackageView};
ghost use Rattle.go_package_defs.specs.Checked.{IsCheckedPackage};
ghost use Rattle.go_package_scopes.specs.Examples.{Examples};
ghost use Rattle.go_package_scopes.specs.Functions.{HaveBranches, HaveNamesInScope, HaveShape};
ghost use Rattle.go_package_scopes.specs.Laid.{HaveOrder, HaveRooms};
ghost use Rattle.go_package_scopes.specs.Own.{AreLexicalByTokens};
ghost use Rattle.go_package_scopes.specs.Runs.{HaveLexicalRuns};
ghost use Rattle.go_package_scopes.specs.Standing.{AreLexicalByNames};

use go_package_settled::laws::faultless_packages_are_resolved;
use go_scopes_events::laws::{functions_are_told_in_order, scopes_stand_in_trees};
use go_stmts_final_types::laws::derivations_are_shaped;
use go_stmts_scopes::laws::{
    covered_functions_are_scoped, derived_functions_have_shape, names_stand_where_they_are_meant,
};

/// Each typed function of a package that type-checks has the shape that evaluation asks for (Go specification: Function declarations,
/// Statements).
pub fn functions_of_checked_packages_have_shape()
    ensures { (p : PackageView) → IsCheckedPackage p → HaveShape (content p).functions }
{
    derivations_are_shaped();
    derived_functions_have_shape();
}

/// Each local that a typed function of a package that type-checks names, or declares, stands at a token that means it, and it is in scope
/// there, or declared there (Go specification: Blocks, Declarations and scope).
pub fn names_of_checked_packages_are_in_scope()
    ensures { (p : PackageView) → IsCheckedPackage p → HaveNamesInScope (content p).uses (content p).functions }
{
    derivations_are_shaped();
    faultless_packages_are_resolved();
    names_stand_where_they_are_meant();
}

/// In each typed function of a package that type-checks a `break` stands in a loop or a `switch`, a `continue` in a loop, and a `fallthrough` in
/// a `switch` (Go specification: Break statements, Continue statements, Fallthrough statements).
pub fn branches_of_checked_packages_lead_somewhere()
    ensures { (p : PackageView) → IsCheckedPackage p → HaveBranches (content p).functions }
{
    derivations_are_shaped();
}

/// Each typed function of a package that type-checks is lexically scoped from its parameters on where by their tokens its names stand as they may,
/// what is written is a place, and each variable that is in scope at one of its tokens is a parameter or is declared in it (Go specification:
/// Blocks, Declarations and scope). Nothing is asked of its parts, nor of its branches.
pub fn functions_of_checked_packages_are_scoped_by_names()
    ensures { (p : PackageView) → IsCheckedPackage p → AreLexicalByNames (content p).functions }
{
    covered_functions_are_scoped();
    functions_of_checked_packages_have_shape();
    branches_of_checked_packages_lead_somewhere();
}

/// The nodes of each typed function of a package that type-checks lie in the order of their tokens: each has a token at least, those of its
/// parts are among its own, and each part stands behind those in front of it (Go specification: Statements, Expressions).
pub fn functions_of_checked_packages_lie_in_order()
    ensures { (p : PackageView) → IsCheckedPackage p → HaveOrder (content p).functions }
{}

/// Each variable that a typed function of a package that type-checks declares at a token is in scope from behind its statement, its
/// specification or the operand of its range clause on, and up to the end of the innermost block (Go specification: Declarations and scope).
pub fn declared_names_of_checked_packages_have_room()
    ensures { (p : PackageView) → IsCheckedPackage p → HaveRooms (content p).uses (content p).functions }
{
    scopes_stand_in_trees();
    functions_are_told_in_order();
    faultless_packages_are_resolved();
    names_stand_where_they_are_meant();
}

/// Each typed function of a package that type-checks is lexically scoped from its parameters on where each variable is used behind its
/// declaration, each name that is declared is new, what is written is a place, and each variable that is in scope at one of its tokens is a
/// parameter or is declared in it (Go specification: Blocks, Declarations and scope). Nothing is asked of the order of its tokens, nor of where
/// what it declares is in scope.
pub fn functions_of_checked_packages_are_scoped_by_tokens()
    ensures { (p : PackageView) → IsCheckedPackage p → AreLexicalByTokens (content p).uses (content p).functions }
{
    declared_names_of_checked_packages_have_room();
    functions_of_checked_packages_are_scoped_by_names();
}

/// Each run of statements in a statement list of a typed function of a package that type-checks is lexically scoped, from the locals on that are in
/// scope in front of it, where each variable is used behind its declaration, each name that is declared is new, what is written is a place, no
/// branch leads out, and each variable that is in scope at one of its tokens is one of these locals or is declared in it (Go specification:
/// Blocks, Declarations and scope). Nothing is asked of the order of its tokens, nor of where what it declares is in scope.
pub fn runs_of_checked_packages_are_scoped_by_tokens()
    ensures { (p : PackageView) → IsCheckedPackage p → HaveLexicalRuns (content p).uses (content p).functions }
{
    covered_functions_are_scoped();
    declared_names_of_checked_packages_have_room();
}

/// A function and a window whose names are their own, and a function that names a local which the package doesn't declare, worked out by hand.
pub fn examples()
    ensures { Examples }
{}
