//! What a session asks of a check.

ghost use Rattle.std.specs.Prelude.{◌≡◌};
ghost use Rattle.go_base.specs.Gives.{Meets};
ghost use Rattle.go_base.specs.Package.{IsPackage};
ghost use Rattle.go_scopes.specs.Views.{failure_of};
ghost use Rattle.go_package_defs.specs.Checked.{IsReported, texts_of};
ghost use Rattle.go_package_defs.specs.Refusals.{check_refusal};

use go_base::FileText;
use go_package_defs::{CheckError, CheckedPackage};
use std::alloc::Global;

/// A check of packages.
pub trait Check {
    /// The package of these files with its types.
    ///
    /// # Errors
    ///
    /// The fault that is reported, exactly where a rule of the language fails; or want of memory.
    fn check(alloc: Global, texts: &[FileText]) -> Result<CheckedPackage, CheckError>
        requires { IsPackage texts.now }
        ensures { Meets check_refusal result (λ c. texts_of c ≡ texts.now) (λ fault. IsReported texts.now (failure_of fault)) };
}
