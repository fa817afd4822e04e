ghost use Rattle.std.specs.Prelude.{◌≡◌};

use clone_script::Command;
use go_base::Memory;
use port_io::Failed;
use std::alloc::{AllocError, AllocFailed};

/// How a script ends.
#[derive(Clone, Copy, Debug, PartialEq, Eq)]
pub enum End {
    /// `quit` was met, or the script ends behind its last command.
    Done,
    /// No command begins at this offset, or the script ends within the one that does.
    Bad { offset: u32 },
    /// The script has more than 16,777,216 bytes, and none of these ends it.
    Long,
}

/// What comes next in a script.
#[derive(Debug, Drop)]
pub enum Step {
    /// A command that is not `quit`.
    Command(Command),
    End(End),
}

/// Why no command was taken.
#[derive(Clone, Copy, Debug, PartialEq, Eq)]
pub enum IntakeError {
    /// A read of the script failed.
    Failed,
    /// Memory ran out.
    Memory,
}

impl From<Failed> for IntakeError {
    ghost use Rattle.clone_server.specs.declared.step.IntakeError.TheVariants as errors;

    ghost from_gives = { λ _ e. e ≡ errors.Failed };

    fn from(_error: Failed) -> IntakeError {
        IntakeError::Failed
    }
}

impl From<Memory> for IntakeError {
    ghost use Rattle.clone_server.specs.declared.step.IntakeError.TheVariants as errors;

    ghost from_gives = { λ _ e. e ≡ errors.Memory };

    fn from(_error: Memory) -> IntakeError {
        IntakeError::Memory
    }
}

impl From<AllocError> for IntakeError {
    ghost use Rattle.clone_server.specs.declared.step.IntakeError.TheVariants as errors;

    ghost from_gives = { λ _ e. e ≡ errors.Memory };

    fn from(_error: AllocError) -> IntakeError {
        IntakeError::Memory
    }
}

impl<T: Drop> From<AllocFailed<T>> for IntakeError {
    ghost use Rattle.clone_server.specs.declared.step.IntakeError.TheVariants as errors;

    ghost from_gives = { λ _ e. e ≡ errors.Memory };

    fn from(_error: AllocFailed<T>) -> IntakeError {
        IntakeError::Memory
    }
}
