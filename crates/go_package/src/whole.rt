//! The check of a package.
ghost use Rattle.std.specs.Prelude.{◌≡◌};
ghost use Rattle.go_base.specs.Gives.{Meets};
ghost use Rattle.go_base.specs.Package.{IsPackage};
ghost use Rattle.go_scopes.specs.Views.{failure_of};
ghost use Rattle.go_package_defs.specs.Checked.{IsReported, texts_of};
ghost use Rattle.go_package_defs.specs.Refusals.{check_refusal};

use crate::laws::file_faults_are_reported;
use crate::phases::check_names;
use crate::{CheckError, read_files};
use go_base::FileText;
use go_package_defs::CheckedPackage;
use go_typed::laws::packages_under_other_numbers;
use std::alloc::Global;

/// The package of these files with its types (Go specification: Source code representation, Lexical elements, Packages, Declarations
/// and scope, Types, Expressions, Statements). A file has its place among them, from 0, as its number.
///
/// # Errors
///
/// The fault that is reported, exactly where a rule fails: of the earliest phase that has one. The phases are the encoding of all
/// files, their tokens, their trees, the names of the package, its declarations, and its bodies. Or want of memory.
pub fn check(alloc: Global, texts: &[FileText]) -> Result<CheckedPackage, CheckError>
    requires { IsPackage texts.now }
    ensures { Meets check_refusal result (λ c. texts_of c ≡ texts.now) (λ fault. IsReported texts.now (failure_of fault)) }
{
    file_faults_are_reported();
    packages_under_other_numbers();
    let files = read_files(alloc, texts)?;
    let checked = check_names(alloc, texts, files)?;
    checked.types();
    Ok(CheckedPackage::of(checked))
}
