//! Runs of the present package.

ghost use Rattle.go_base.specs.Gives.{Gives, Meets};
ghost use Rattle.go_base.specs.declared.bytes.FileText.{FileText as File};
ghost use Rattle.std.specs.Prelude.{List};
ghost use Rattle.go_scopes.specs.Views.{failure_of};
ghost use Rattle.go_package_defs.specs.Refusals.{check_refusal};
ghost use Rattle.clone_session.specs.Answers.{IsRunOf};
ghost use Rattle.clone_session.specs.Session.{IsOf};
ghost use Rattle.go_typed.specs.Contents.{Content as Whole};
ghost use Rattle.go_package_defs.specs.Checked.{IsChecked, IsCheckedPackage, IsReported, texts_of};
ghost use Rattle.go_eval.specs.Runs.{outcome_view, refusal};
ghost use Rattle.clone_replies.specs.ReplyContents.{run_in};

use crate::laws::runs_follow_from_the_texts;
use crate::verdict::Verdict;
use go_eval::outcome::{Outcome, RunError};
use go_eval::program::run;
use go_package_defs::CheckError;
use go_typed::checked::Checked;
use std::alloc::Global;

/// What the run of a package that type-checks comes to.
///
/// # Errors
///
/// `NoMain` exactly where it isn't named `main` or has no function `main`; also want of memory.
pub fn run_of(
    alloc: Global,
    checked: &Checked,
    input: &[u8],
    turns: u64,
) -> Result<Outcome, RunError>
    requires { IsCheckedPackage checked.now }
    ensures { (c : Whole) → IsChecked (texts_of checked.now) c → Gives outcome_view refusal result (run_in c input.now turns) }
{
    runs_follow_from_the_texts();
    run(alloc, checked, input, turns)
}

/// What the run of a package of which the check says this comes to.
///
/// # Errors
///
/// The fault that is reported, where it is one; also want of memory.
pub fn run_under(
    alloc: Global,
    verdict: &Verdict,
    input: &[u8],
    turns: u64,
) -> Result<Result<Outcome, RunError>, CheckError>
    ensures { (texts : List File) → IsOf texts verdict.now → Meets check_refusal result (IsRunOf texts input.now turns) (λ fault. IsReported texts (failure_of fault)) }
{
    match verdict {
        Verdict::Good(package) => Ok(run_of(alloc, package.package(), input, turns)),
        Verdict::Faulty(fault) => Err(CheckError::Fault(*fault)),
    }
}
