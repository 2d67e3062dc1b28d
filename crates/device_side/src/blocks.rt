//! Blocks that were handed out, written to a disk.
ghost use Rattle.std.specs.Prelude.{◌≡◌, ◌<◌, ◌/◌, OnErr, OnOk, is_ok, map};
ghost use Rattle.disk_model.specs.Disk.{Changes, Continues, HasCause, IfBoth, IsCutOff, lost_after, written};
ghost use Rattle.batch_write.specs.Batch.{IsPlace, write_call};
ghost use Rattle.device_side.specs.Written.{AreWritten, ChangesOnly, MayBeWritten};

use blk_base::{Addr, Block};
use block_table::Blocks;
use disk_model::{Disk, DiskFailed};

/// The number of the block at a byte address.
fn number_of<D: Disk>(disk: &D, at: Addr) -> u32
    requires { at.0 / 4096 < D.count disk.now }
    ensures { result ≡ at.0 / 4096 }
{
    let number = at.0 / 4096;
    let blocks = u64::from(disk.blocks());
    prove!(number < blocks);
    number as u32
}

/// Writes a block at its byte address.
fn write_at<D: Disk>(disk: &mut D, at: Addr, block: &Block) -> Result<(), DiskFailed>
    requires { IsPlace (D.count disk.old) at }
    ensures size { D.count disk.new ≡ D.count disk.old }
    ensures seen { Changes (D.seen disk.old) (D.seen disk.new) (at.0 / 4096) block.now (is_ok result) }
    ensures lost { D.lost disk.new ≡ lost_after (at.0 / 4096) (is_ok result) (D.lost disk.old) }
    ensures told { Continues (D.told disk.old) (D.told disk.new) (is_ok result) (written (at.0 / 4096) block.now (is_ok result) (D.seen disk.new)) }
    ensures cause { HasCause (D.faults disk.old) (D.faults disk.new) result }
{
    let number = number_of(disk, at);
    disk.write(number, block)
}

/// Writes the blocks in their order.
pub(crate) fn write_blocks<D: Disk>(disk: &mut D, blocks: &Blocks) -> Result<(), DiskFailed>
    requires { MayBeWritten (D.count disk.old) blocks.now.pairs }
    ensures changes { ChangesOnly
        (record { count = D.count disk.old; seen = D.seen disk.old; lost = D.lost disk.old; told = D.told disk.old })
        (record { count = D.count disk.new; seen = D.seen disk.new; lost = D.lost disk.new; told = D.told disk.new }) blocks.now.pairs }
    ensures written { OnOk result (AreWritten
        (record { count = D.count disk.old; seen = D.seen disk.old; lost = D.lost disk.old; told = D.told disk.old })
        (record { count = D.count disk.new; seen = D.seen disk.new; lost = D.lost disk.new; told = D.told disk.new }) blocks.now.pairs) }
    ensures cut_off { OnErr result (IfBoth (D.told disk.old) (D.told disk.new) (λ old new. IsCutOff old new (map write_call blocks.now.pairs))) }
    ensures cause { HasCause (D.faults disk.old) (D.faults disk.new) result }
{
    for place in 0..blocks.len() {
        let (at, block) = blocks.get(place);
        write_at(disk, at, block)?;
    }
    Ok(())
}
