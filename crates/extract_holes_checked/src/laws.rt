//! Laws of extractions from packages that type-check, for the crates above. The functions do nothing: their contracts are the laws.

ghost use Rattle.std.specs.Prelude.{map};
ghost use Rattle.go_typed.specs.Contents.{content};
ghost use Rattle.go_typed.specs.Packages.{PackageView};
ghost use Rattle.go_package_defs.specs.Checked.{IsCheckedPackage};
ghost use Rattle.go_package_defs.specs.Sources.{source_of};
ghost use Rattle.go_stmts_final_types.specs.PackageNames.{PackageIsNamed};
ghost use Rattle.extract_holes_checked.specs.Checked.{AllKnown, NamedTemplatesHaveHoles, TemplatesHaveHoles};

use extract_holes_placed::laws::template_holes_have_sites;
use go_function_holes_apart::laws::holes_that_stand_lie_apart;
use go_function_holes_windows::laws::holes_of_windows_stand;
use go_function_trees::laws::windows_stand;
use go_stmts_callees::laws::named_packages_call_no_constant;
use go_stmts_final_types::laws::{derivations_are_shaped, names_make_known};

/// The holes of the template stand below the node of its statements, one behind the other, in a package that type-checks: the template is the
/// first window, which has a statement (`HasHoles`; Go specification: Statement lists, Constant expressions).
///
/// A caller gives that what the nodes of the package's functions stand for is known, and that no constant is called there and no field of one is
/// selected (`named_packages_are_known`, `named_packages_call_no_constant`).
pub fn templates_have_holes()
    ensures { TemplatesHaveHoles }
{
    windows_stand();
    holes_of_windows_stand();
    holes_that_stand_lie_apart();
    template_holes_have_sites();
}

/// In a package that type-checks, whose names stand for something known, so do all nodes of its functions, under whatever numbers of declared
/// types.
pub fn named_packages_are_known()
    ensures { (p : PackageView) (h : IsCheckedPackage p) → PackageIsNamed (map source_of h.checked.files) → AllKnown (content p).functions }
{
    derivations_are_shaped();
    names_make_known();
}

/// So the holes of the template stand below the node of its statements in a package that type-checks, whose names stand for something known.
pub fn named_templates_have_holes()
    ensures { NamedTemplatesHaveHoles }
{
    templates_have_holes();
    named_packages_are_known();
    named_packages_call_no_constant();
}
