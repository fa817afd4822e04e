ghost use Rattle.std.specs.Prelude.{◌≡◌};
ghost use Rattle.clone_server.specs.Serving.{status_of, save_stop, sink_stop, intake_stop};

use crate::IntakeError;
use go_base::Memory;
use port_io::{FolderError, SinkError};

/// Why a run stops before its end.
#[derive(Clone, Copy, Debug, PartialEq, Eq)]
pub enum Stop {
    /// The folder was not read.
    Folder,
    /// A read of the script failed.
    Script,
    /// A write to the sink failed.
    Sink,
    /// A file of a `save` was not written.
    Save,
    /// Memory ran out.
    Memory,
}

impl Stop {
    /// The status of a run that stops so.
    pub fn status(self) -> u8
        ensures { result ≡ status_of self }
    {
        match self {
            Stop::Folder => 4,
            Stop::Script => 5,
            Stop::Sink => 6,
            Stop::Save => 7,
            Stop::Memory => 8,
        }
    }
}

impl From<Memory> for Stop {
    ghost use Rattle.clone_server.specs.declared.stop.Stop.TheVariants as stop;

    ghost from_gives = { λ _ e. e ≡ stop.Memory };

    fn from(_error: Memory) -> Stop {
        Stop::Memory
    }
}

impl From<IntakeError> for Stop {
    ghost from_gives = { λ x e. e ≡ intake_stop x };

    fn from(error: IntakeError) -> Stop {
        match error {
            IntakeError::Failed => Stop::Script,
            IntakeError::Memory => Stop::Memory,
        }
    }
}

impl From<SinkError> for Stop {
    ghost from_gives = { λ x e. e ≡ sink_stop x };

    fn from(error: SinkError) -> Stop {
        match error {
            SinkError::Failed => Stop::Sink,
            SinkError::Memory => Stop::Memory,
        }
    }
}

impl From<FolderError> for Stop {
    ghost from_gives = { λ x e. e ≡ save_stop x };

    /// Of a write of the folder.
    fn from(error: FolderError) -> Stop {
        match error {
            FolderError::Failed => Stop::Save,
            FolderError::Memory => Stop::Memory,
        }
    }
}
