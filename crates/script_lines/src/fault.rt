ghost use Rattle.std.specs.Prelude.{◌≡◌};

use blk_base::OutOfMemory;
use io_edge::SinkFailed;
use thiserror::Error;

/// Why a run of lines ended before its last line.
#[derive(Clone, Copy, Debug, PartialEq, Eq, Error)]
pub enum RunFault {
    /// The sink failed.
    #[error("sink failed")]
    Sink,
    /// No memory.
    #[error("no memory")]
    OutOfMemory,
}

impl From<OutOfMemory> for RunFault {
    ghost use Rattle.script_lines.specs.declared.fault.RunFault.TheVariants.{OutOfMemory};

    ghost from_gives = { λ _ fault. fault ≡ OutOfMemory };

    fn from(_e: OutOfMemory) -> RunFault {
        RunFault::OutOfMemory
    }
}

impl From<SinkFailed> for RunFault {
    ghost use Rattle.script_lines.specs.declared.fault.RunFault.TheVariants.{Sink};

    ghost from_gives = { λ _ fault. fault ≡ Sink };

    fn from(_e: SinkFailed) -> RunFault {
        RunFault::Sink
    }
}
