//! Laws, for the crates above. The functions do nothing: their contracts are the laws.

ghost use Rattle.std.specs.Prelude.{◌≤◌};
ghost use Rattle.go_base.specs.Package.{most_bytes, total_bytes};
ghost use Rattle.go_typed.specs.Contents.{Content, content};
ghost use Rattle.go_typed.specs.Packages.{PackageView};
ghost use Rattle.go_package_defs.specs.Checked.{IsCheckedPackage, texts_of};
ghost use Rattle.go_function_holes_apart.specs.Apart.{HolesLieApart, HolesStandApart, WindowHolesLieApart};

use go_function_trees::laws::functions_have_trees;
use go_stmts_tokens::laws::read_nodes_lie_in_order;
use window_holes_apart::laws::holes_of_ordered_windows_lie_apart;

/// The holes of a window of a function lie one behind the other among the tokens of the window, and each has a token, where the function is
/// what is read of a declaration in the tree of a file (Go specification: Constant expressions). It doesn't matter what its names stand for.
pub fn holes_of_windows_lie_apart()
    ensures { (c : Content) → WindowHolesLieApart c }
{
    read_nodes_lie_in_order();
    holes_of_ordered_windows_lie_apart();
}

/// So do the holes of each window of a package that type-checks.
pub fn holes_of_checked_packages_lie_apart()
    ensures { (p : PackageView) → IsCheckedPackage p → total_bytes (texts_of p) ≤ most_bytes → HolesLieApart (content p) }
{
    functions_have_trees();
    holes_of_windows_lie_apart();
}

/// Where each hole of a window stands in one of its statements, they stand so and lie apart (`HolesStand`).
pub fn holes_that_stand_lie_apart()
    ensures { HolesStandApart }
{
    holes_of_windows_lie_apart();
}
