//! Laws of names in types, for the crates above. The functions do nothing: their contracts are the laws.

ghost use Rattle.go_stmts_written.specs.Packages.{CheckedPackagesAreNamed};

use go_print_laws::laws::names_are_names;

/// The types that a function of a package that type-checks, its locals and its nodes stand for have fields whose names are spelled as
/// names are (Go specification: Struct types, Identifiers).
pub fn checked_packages_are_named()
    ensures { CheckedPackagesAreNamed }
{
    names_are_names();
}
