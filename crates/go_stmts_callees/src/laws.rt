//! Laws, for the crates above. The functions do nothing: their contracts are the laws.

ghost use Rattle.std.specs.Prelude.{map};
ghost use Rattle.go_typed.specs.Contents.{content};
ghost use Rattle.go_typed.specs.Packages.{PackageView};
ghost use Rattle.go_package_defs.specs.Checked.{IsCheckedPackage};
ghost use Rattle.go_package_defs.specs.Sources.{source_of};
ghost use Rattle.go_stmts_final_types.specs.PackageNames.{PackageIsNamed};
ghost use Rattle.go_stmts_callees.specs.Callees.{AllCallNoConstant, FunctionsCallNoConstant, PlacedExpressionsCallNoConstant, WindowsAreKnown, WindowsCallNoConstant};

use go_stmts_final_types::laws::derivations_are_shaped;

/// In an expression without faults no constant is called, and no field of one is selected, where all is known that is around it, and what its
/// names mean is declared in front of them: a constant is of its type's family, so that its type is no function type and no struct type (Go
/// specification: Constants, Calls, Selectors). Nothing is asked of what the names stand for.
pub fn placed_expressions_call_no_constant()
    ensures { PlacedExpressionsCallNoConstant }
{}

/// So it is in a function without faults, where each name stands for something known when it is read, and a constant is of its type's family.
pub fn functions_call_no_constant()
    ensures { FunctionsCallNoConstant }
{}

/// So it is in all functions of a package that type-checks, where its names stand for something known, under whatever numbers of declared
/// types.
pub fn named_packages_call_no_constant()
    ensures { (p : PackageView) (h : IsCheckedPackage p) → PackageIsNamed (map source_of h.checked.files) → AllCallNoConstant (content p).functions }
{
    derivations_are_shaped();
}

/// What holds of a function holds of the statements of a window of it: no constant is called, and what nodes stand for is known.
pub fn windows_are_like_their_functions()
    ensures called { WindowsCallNoConstant }
    ensures known { WindowsAreKnown }
{}
