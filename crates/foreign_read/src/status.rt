ghost use Rattle.std.specs.Prelude.{◌≡◌};
ghost use Rattle.foreign_read.specs.Commands.{code_of};

use foreign_format::ForeignFault;

/// How the command `foreign` ended.
#[derive(Clone, Copy, Debug, PartialEq, Eq)]
pub enum ForeignStatus {
    /// The listing was written.
    Done,
    /// The words aren't `foreign` alone.
    Usage,
    /// The disk has no volume that can be read; this is the first fault.
    NoVolume(ForeignFault),
    /// The disk failed.
    DiskFault,
    /// The sink failed.
    WriteFault,
    /// No memory.
    Memory,
}

impl ForeignStatus {
    /// The exit status of a program whose command ended so (own).
    pub fn code(&self) -> u8
        ensures { result ≡ code_of self.now }
    {
        match self {
            ForeignStatus::Done => 0,
            ForeignStatus::Usage => 1,
            ForeignStatus::NoVolume(_) => 3,
            ForeignStatus::DiskFault => 4,
            ForeignStatus::WriteFault => 6,
            ForeignStatus::Memory => 7,
        }
    }
}
