ghost use Rattle.std.specs.Prelude.{◌≡◌};
ghost use Rattle.script_runner.specs.Commands.{code_of};

use script_text::ScriptKind;
use tree_mount::MountFault;

/// How a command ended.
#[derive(Clone, Copy, Debug, PartialEq, Eq)]
pub enum Status {
    /// What the command asked was done, and its text was written.
    Done,
    /// The words are no command.
    Usage,
    /// The script has this fault, the first, on this line, counted from 1.
    BadScript { line: u32, kind: ScriptKind },
    /// The disk has no volume that can be mounted.
    NoVolume(MountFault),
    /// The disk failed.
    DiskFault,
    /// The source failed, or has more than 16 MiB. `taken`: the bytes that it gave.
    ReadFault { taken: u64 },
    /// The sink failed.
    WriteFault,
    /// No memory.
    Memory,
    /// A word of `mkfs` is out of its form or its range.
    MkfsRange,
}

impl Status {
    /// The exit status of a program whose command ended so (own).
    pub fn code(&self) -> u8
        ensures { result ≡ code_of self.now }
    {
        match self {
            Status::Done => 0,
            Status::Usage => 1,
            Status::BadScript { .. } => 2,
            Status::NoVolume(_) => 3,
            Status::DiskFault => 4,
            Status::ReadFault { .. } => 5,
            Status::WriteFault => 6,
            Status::Memory => 7,
            Status::MkfsRange => 8,
        }
    }
}
