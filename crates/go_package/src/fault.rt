//! Faults of bodies by the bytes of their files.
ghost use Rattle.std.specs.Prelude.{◌≡◌};
ghost use Rattle.go_exprs_rules.specs.Faults.{refusal_of};
ghost use Rattle.go_package.specs.Functions.{IsMoved, check_failure};

use go_base::Fault;
use go_exprs_rules::TypeError;
use go_package_defs::CheckError;
use go_scopes_lookup::unit::bytes_of;
use go_tokens::tokens::Tokens;

/// The error with its fault by the bytes of the file; the fault counts tokens from the one of the number `base` on. `Memory` also where
/// the numbers of its tokens are too large.
pub(crate) fn placed(tokens: &Tokens, base: u32, error: TypeError) -> CheckError
    ensures { IsMoved tokens.now base (refusal_of error) (check_failure result) }
{
    let TypeError::Fault(fault) = error else {
        return CheckError::Memory;
    };
    let Some(first) = base.checked_add(fault.first) else {
        return CheckError::Memory;
    };
    let Some(last) = base.checked_add(fault.last) else {
        return CheckError::Memory;
    };
    CheckError::Fault(Fault {
        code: fault.code,
        span: bytes_of(tokens.file(), tokens, first, last),
    })
}
