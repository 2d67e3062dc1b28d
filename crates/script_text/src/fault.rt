ghost use Rattle.std.specs.Prelude.{◌≡◌};
ghost use Rattle.script_text.specs.Kinds.{kind_word, fault_at};

use blk_base::OutOfMemory;
use std::alloc::{AllocError, AllocFailed};
use thiserror::Error;

/// What is wrong with a line of a script, in the order in which a line is looked at (own).
#[derive(Clone, Copy, Debug, PartialEq, Eq, Error)]
pub enum ScriptKind {
    /// The line stands behind the 65,536th.
    #[error("lines")]
    Lines,
    /// The line isn't UTF-8.
    #[error("utf8")]
    Utf8,
    /// The first word is no number from 1 to 16.
    #[error("caller")]
    Caller,
    /// A verb that isn't known, another number of words than the verb has, or an empty word.
    #[error("word")]
    Word,
    /// A backslash in a path or a text that begins neither `\\` nor `\xHH` with two digits in lower case.
    #[error("escape")]
    Escape,
    /// A path that is none, or a text without a byte or with more than 65,536.
    #[error("path")]
    Path,
    /// A word that should be a number from 0 to 2^64 - 1 in decimal digits, and isn't.
    #[error("number")]
    Number,
    /// A request that may not stand at this place of a script.
    #[error("order")]
    Order,
}

impl ScriptKind {
    /// The name of the kind, in lower case (own).
    pub fn word(&self) -> &'static str
        ensures { result.now ≡ kind_word self.now }
    {
        match self {
            ScriptKind::Lines => "lines",
            ScriptKind::Utf8 => "utf8",
            ScriptKind::Caller => "caller",
            ScriptKind::Word => "word",
            ScriptKind::Escape => "escape",
            ScriptKind::Path => "path",
            ScriptKind::Number => "number",
            ScriptKind::Order => "order",
        }
    }
}

/// Why a script wasn't read.
#[derive(Clone, Copy, Debug, PartialEq, Eq, Error)]
pub enum ScriptFault {
    /// The first line with a fault, counted from 1 with the empty ones and the comments, and the fault's kind.
    #[error("line {line}: {kind}")]
    Bad { line: u32, kind: ScriptKind },
    /// No memory.
    #[error("no memory")]
    OutOfMemory,
}

impl From<AllocError> for ScriptFault {
    ghost use Rattle.script_text.specs.declared.fault.ScriptFault.TheVariants.{OutOfMemory};

    ghost from_gives = { λ _ fault. fault ≡ OutOfMemory };

    fn from(_e: AllocError) -> ScriptFault {
        ScriptFault::OutOfMemory
    }
}

impl<T: Drop> From<AllocFailed<T>> for ScriptFault {
    ghost use Rattle.script_text.specs.declared.fault.ScriptFault.TheVariants.{OutOfMemory};

    ghost from_gives = { λ _ fault. fault ≡ OutOfMemory };

    fn from(_e: AllocFailed<T>) -> ScriptFault {
        ScriptFault::OutOfMemory
    }
}

/// Why a line, or a part of one, wasn't read.
#[derive(Clone, Copy, Debug, PartialEq, Eq, Error)]
pub(crate) enum LineFault {
    /// What is wrong with it.
    #[error("{0}")]
    Kind(ScriptKind),
    /// No memory.
    #[error("no memory")]
    OutOfMemory,
}

impl LineFault {
    /// The fault of a script whose line of this number, counted from 1, has this one.
    pub(crate) fn at(self, line: u32) -> ScriptFault
        ensures { result ≡ fault_at self line }
    {
        match self {
            LineFault::Kind(kind) => ScriptFault::Bad { line, kind },
            LineFault::OutOfMemory => ScriptFault::OutOfMemory,
        }
    }
}

impl From<OutOfMemory> for LineFault {
    ghost use Rattle.script_text.specs.declared.fault.LineFault.TheVariants.{OutOfMemory};

    ghost from_gives = { λ _ fault. fault ≡ OutOfMemory };

    fn from(_e: OutOfMemory) -> LineFault {
        LineFault::OutOfMemory
    }
}

impl From<AllocError> for LineFault {
    ghost use Rattle.script_text.specs.declared.fault.LineFault.TheVariants.{OutOfMemory};

    ghost from_gives = { λ _ fault. fault ≡ OutOfMemory };

    fn from(_e: AllocError) -> LineFault {
        LineFault::OutOfMemory
    }
}

impl<T: Drop> From<AllocFailed<T>> for LineFault {
    ghost use Rattle.script_text.specs.declared.fault.LineFault.TheVariants.{OutOfMemory};

    ghost from_gives = { λ _ fault. fault ≡ OutOfMemory };

    fn from(_e: AllocFailed<T>) -> LineFault {
        LineFault::OutOfMemory
    }
}
