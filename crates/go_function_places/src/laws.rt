//! Laws, for the crates above. The functions do nothing: their contracts are the laws.

ghost use Rattle.std.specs.Prelude.{◌≤◌};
ghost use Rattle.go_base.specs.Package.{most_bytes, total_bytes};
ghost use Rattle.go_typed.specs.Contents.{content};
ghost use Rattle.go_typed.specs.Packages.{PackageView};
ghost use Rattle.go_package_defs.specs.Checked.{IsCheckedPackage, texts_of};
ghost use Rattle.go_function_places.specs.Places.{HavePlaces};

use go_scopes::laws::functions_are_numbered_in_order;

/// Each function of a package that type-checks has tokens of its own in its file, behind those of the functions in front of it; and its
/// statements are among them: each has a token at least, and stands behind those in front of it (Go specification: Function
/// declarations, Statements).
pub fn functions_have_places()
    ensures { (p : PackageView) → IsCheckedPackage p → total_bytes (texts_of p) ≤ most_bytes → HavePlaces (content p) }
{
    functions_are_numbered_in_order();
}
