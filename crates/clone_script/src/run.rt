ghost use Rattle.std.specs.Prelude.{◌≡◌, ◌++◌, IfOk, OnOk};
ghost use Rattle.clone_script.specs.Replies.{counted};
ghost use Rattle.clone_script.specs.Runs.{cause_word, end_words, run_reply};

use crate::reply::push_counted;
use go_base::{Bytes, Memory};
use std::alloc::{AllocError, Global};

/// Why a run panicked, as its reply shows it.
#[derive(Clone, Copy, Debug, PartialEq, Eq)]
pub enum PanicCause {
    /// A division by zero.
    Divide,
    /// A negative count of a shift.
    Shift,
    /// An index out of range.
    Index,
    /// The bounds of a slice out of range.
    Slice,
    /// A call of a nil function.
    NilCall,
    /// A length or capacity that `make` doesn't take.
    Make,
    /// A call of `panic`.
    User,
}

/// How a run ended, as its reply shows it.
#[derive(Clone, Copy, Debug, PartialEq, Eq)]
pub enum RunEnd {
    /// `main` returned.
    Ended,
    Panicked(PanicCause),
    /// The turns or the depth of calls didn't suffice.
    Undecided,
}

/// What became of the command `run`: how the program ended and what it wrote, or that the package is no
/// program.
#[derive(Clone, Copy, Debug)]
pub enum RunAnswer<'a> {
    Ran { end: RunEnd, output: &'a [u8] },
    /// There is no `func main()`, or the package isn't `main`.
    NoMain,
}

impl PanicCause {
    fn word(self) -> &'static [u8]
        ensures { result.now ≡ cause_word self }
    {
        match self {
            PanicCause::Divide => b"divide",
            PanicCause::Shift => b"shift",
            PanicCause::Index => b"index",
            PanicCause::Slice => b"slice",
            PanicCause::NilCall => b"nilcall",
            PanicCause::Make => b"make",
            PanicCause::User => b"user",
        }
    }
}

/// Puts the words for the end of a run behind the others.
fn push_end(out: &mut Vec<u8>, end: RunEnd) -> Result<(), AllocError>
    ensures { OnOk result (out.new.items ≡ out.old.items ++ end_words end) }
{
    match end {
        RunEnd::Ended => out.extend_from_slice(b"ended "),
        RunEnd::Undecided => out.extend_from_slice(b"undecided "),
        RunEnd::Panicked(cause) => {
            out.extend_from_slice(b"panicked ")?;
            out.extend_from_slice(cause.word())?;
            out.extend_from_slice(b" ")
        }
    }
}

/// The reply to `run`: how the run ended, how many bytes the output has and these bytes, or that the package
/// is no program.
pub fn run_reply(alloc: Global, answer: RunAnswer<'_>) -> Result<Bytes, Memory>
    ensures { IfOk result (λ reply. reply ≡ run_reply answer.entry) }
{
    let mut out = Vec::new(alloc);
    match answer {
        RunAnswer::NoMain => out.extend_from_slice(b"no run 1 NoMain\n")?,
        RunAnswer::Ran { end, output } => {
            push_end(&mut out, end)?;
            push_counted(alloc, &mut out, output)?;
        }
    }
    Ok(Bytes::of(out))
}
