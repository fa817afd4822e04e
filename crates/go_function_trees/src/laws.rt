//! Laws, for the crates above. The functions do nothing: their contracts are the laws.

ghost use Rattle.std.specs.Prelude.{◌≤◌};
ghost use Rattle.go_base.specs.Package.{most_bytes, total_bytes};
ghost use Rattle.go_typed.specs.Contents.{content};
ghost use Rattle.go_typed.specs.Packages.{PackageView};
ghost use Rattle.go_package_defs.specs.Checked.{IsCheckedPackage, texts_of};
ghost use Rattle.go_function_trees.specs.Functions.{HaveTrees, WindowsStand};

use go_rewriting::laws::subtrees_stand;
use go_scopes::laws::functions_are_numbered_in_order;
use go_stmts_final_types::laws::derivations_are_shaped;

/// Each function of a package that type-checks has a declaration in the tree of its file, where its name is declared, and the typed tree is
/// what is read of it. A path in the tree of the file leads to the node of each of its statement lists, and the statements are one by one the
/// parts of that node, behind the values of a case (Go specification: Function declarations, Blocks, Expression switches).
pub fn functions_have_trees()
    ensures { (p : PackageView) → IsCheckedPackage p → total_bytes (texts_of p) ≤ most_bytes → HaveTrees (content p) }
{
    functions_are_numbered_in_order();
    subtrees_stand();
    derivations_are_shaped();
}

/// So the statements of a window are adjoining parts of such a node.
pub fn windows_stand()
    ensures { (p : PackageView) → IsCheckedPackage p → total_bytes (texts_of p) ≤ most_bytes → WindowsStand (content p) }
{
    functions_have_trees();
}
