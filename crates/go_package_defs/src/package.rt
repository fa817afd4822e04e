//! A package of which it is known that it type-checks.

ghost use Rattle.std.specs.Prelude.{◌≡◌};
ghost use Rattle.go_package_defs.specs.Checked.{IsCheckedPackage};

use go_typed::Checked;
use std::marker::Model;

/// A package that type-checks, with the types that the check of its files gives it (Go specification: Declarations and scope,
/// Types, Expressions, Statements).
#[derive(Drop)]
pub struct CheckedPackage {
    inside: Checked,
}

impl Model for CheckedPackage {
    ghost use Rattle.std.specs.Coded.{codes};
    ghost use Rattle.go_tree.specs.contracts.node.Node as n;
    ghost use Rattle.go_typed.specs.contracts.node.TypedNode as e;
    ghost use Rattle.go_typed.specs.Packages.{PackageView};
    ghost use Rattle.go_package_defs.specs.Checked.{IsCheckedPackage};

    ghost Value = { PackageView };

    ghost coded = { Prim.hlevel (codes, n.the_row.coded, e.the_row.coded) };

    ghost view = { λ c. c.inside };

    ghost invariant = { λ c. IsCheckedPackage c.inside };
}

impl CheckedPackage {
    /// The package, of which it is known that it is what the check of its files gives.
    pub fn of(inside: Checked) -> CheckedPackage
        requires { IsCheckedPackage inside }
        ensures { result ≡ inside }
    {
        CheckedPackage { inside }
    }

    /// The package with its types.
    pub fn package(&self) -> &Checked
        ensures same { result.now ≡ self.now }
        ensures checked { IsCheckedPackage self.now }
    {
        &self.inside
    }
}
