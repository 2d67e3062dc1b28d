ghost use Rattle.std.specs.Prelude.{◌≡◌, ◌≤◌, ◌+◌, ◌++◌, ℕ, length, IfOk, OnOk, OnErr, Err};
ghost use Rattle.io_edge.specs.Edge.{Gives};
ghost use Rattle.io_edge.specs.Reading.{HasEnded, HasGivenSome, IsCutShort};

use crate::{Source, SourceFailed};
use blk_base::OutOfMemory;
use blk_base::limits::MOST_SCRIPT_BYTES;
use std::alloc::Global;
use thiserror::Error;

/// Why a source wasn't read to its end.
#[derive(Clone, Copy, Debug, PartialEq, Eq, Error)]
pub enum ReadFault {
    /// The source failed, or has more bytes than are read. `taken`: how many were read before.
    #[error("read failed after {taken} bytes")]
    Failed { taken: u64 },
    /// No memory.
    #[error("no memory")]
    OutOfMemory,
}

impl From<OutOfMemory> for ReadFault {
    ghost use Rattle.io_edge.specs.declared.reading.ReadFault.TheVariants.{OutOfMemory};

    ghost from_gives = { λ _ fault. fault ≡ OutOfMemory };

    fn from(_e: OutOfMemory) -> ReadFault {
        ReadFault::OutOfMemory
    }
}

/// Reads a source to its end, at most 16,777,216 bytes of it. Once so many were read, one byte more is asked for: where the
/// source gives it, it is too long, which is `Failed` with the bytes that were read, without that one (own).
pub fn read_all<S: Source>(alloc: Global, from: &mut S) -> Result<Vec<u8>, ReadFault>
    ensures whole { IfOk result (λ bytes. Gives (S.left from.old) bytes.items (S.left from.new)) }
    ensures end { IfOk result (λ bytes. HasEnded (S.left from.new)) }
    ensures few { IfOk result (λ bytes. length bytes.items ≤ MOST_SCRIPT_BYTES) }
    ensures failed { (taken : ℕ) → result ≡ Err (ReadFault.Failed taken) → IsCutShort (S.left from.old) (S.left from.new) (S.faults from.old) (S.faults from.new) taken }
    ensures memory { result ≡ Err ReadFault.OutOfMemory → HasGivenSome (S.left from.old) (S.left from.new) }
    ensures counted { S.faults from.old ≤ S.faults from.new }
{
    let mut bytes = Vec::new(alloc);
    let mut part = [0; 4096];
    while bytes.len() < MOST_SCRIPT_BYTES {
        let asked = (MOST_SCRIPT_BYTES - bytes.len()).min(4096);
        match from.read(&mut part[..asked]) {
            Ok(0) => return Ok(bytes),
            Ok(count) => add(&mut bytes, &part[..count])?,
            Err(SourceFailed) => {
                return Err(ReadFault::Failed {
                    taken: bytes.len() as u64,
                });
            }
        }
    }
    let most = MOST_SCRIPT_BYTES as u64;
    match from.read(&mut part[..1]) {
        Ok(0) => Ok(bytes),
        Ok(_) => Err(ReadFault::Failed { taken: most }),
        Err(SourceFailed) => Err(ReadFault::Failed { taken: most }),
    }
}

/// Puts these bytes behind those that were read.
fn add(bytes: &mut Vec<u8>, part: &[u8]) -> Result<(), OutOfMemory>
    requires { length bytes.old.items + length part.now ≤ MOST_SCRIPT_BYTES }
    ensures ok { OnOk result (bytes.new.items ≡ bytes.old.items ++ part.now) }
    ensures err { OnErr result (bytes.new.items ≡ bytes.old.items) }
{
    Ok(bytes.extend_from_slice(part)?)
}
