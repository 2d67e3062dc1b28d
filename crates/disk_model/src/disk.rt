ghost use Rattle.std.specs.Prelude.{◌≡◌, ◌≢◌, ◌<◌, ℕ, List, length, Option, OnOk, is_ok};
ghost use Rattle.disk_model.specs.Disk.{Told, Call, Image, IsImage, Leaves, IfTold, Continues, Changes, ReadGives, HasCause, held_now, image_now, written, super_written, lost_after};

use blk_base::Block;
use thiserror::Error;

/// The disk failed in this call.
#[derive(Clone, Copy, Debug, PartialEq, Eq, Error)]
#[error("disk failed")]
pub struct DiskFailed;

/// A disk of blocks of 4096 bytes. Block 16 has the superblock.
///
/// A superblock is written whole or not at all, and durable at Ok; after a failed write a crash may find the old one or
/// the new one until a later write of it answers Ok. Any other block that was written since the last flush, or whose
/// write failed since then, may hold any bytes after a crash. A flush that fails proves nothing: what it was to make
/// durable is lost, and reads as anything until it is written again, also after a later flush that answers Ok. Every
/// other block stays (own).
pub trait Disk {
    /// The number of blocks.
    ghost count: { Self → ℕ };

    /// What a read gives, but of a lost block, where the disk tells it.
    ghost seen: { Self → Option Image };

    /// The lost blocks: they were written and not yet flushed when a flush failed, and no write of them has answered Ok since.
    ghost lost: { Self → List ℕ };

    /// The record of the calls, where the disk tells it.
    ghost told: { Self → Option Told };

    /// How often it has failed.
    ghost faults: { Self → ℕ };

    /// The number of blocks.
    fn blocks(&self) -> u32
        ensures { result ≡ count self.now };

    /// Reads the block with this number. Of a lost one it may give anything, each time something else.
    fn read(&mut self, at: u32, into: &mut Block) -> Result<(), DiskFailed>
        requires { at < count self.old }
        ensures bytes { OnOk result (ReadGives (seen self.old) (lost self.old) at into.new) }
        ensures size { count self.new ≡ count self.old }
        ensures seen { seen self.new ≡ seen self.old }
        ensures lost { lost self.new ≡ lost self.old }
        ensures told { told self.new ≡ told self.old }
        ensures cause { HasCause (faults self.old) (faults self.new) result };

    /// Writes the block with this number, which isn't the superblock's. A crash may leave any bytes there until a flush
    /// answers Ok.
    fn write(&mut self, at: u32, from: &Block) -> Result<(), DiskFailed>
        requires range { at < count self.old }
        requires not_super { at ≢ 16 }
        ensures size { count self.new ≡ count self.old }
        ensures seen { Changes (seen self.old) (seen self.new) at from.now (is_ok result) }
        ensures lost { lost self.new ≡ lost_after at (is_ok result) (lost self.old) }
        ensures told { Continues (told self.old) (told self.new) (is_ok result) (written at from.now (is_ok result) (seen self.new)) }
        ensures cause { HasCause (faults self.old) (faults self.new) result };

    /// Writes the superblock, whole or not at all. At Ok it is durable.
    fn write_super(&mut self, from: &Block) -> Result<(), DiskFailed>
        requires { 16 < count self.old }
        ensures size { count self.new ≡ count self.old }
        ensures seen { Changes (seen self.old) (seen self.new) 16 from.now (is_ok result) }
        ensures lost { lost self.new ≡ lost self.old }
        ensures told { Continues (told self.old) (told self.new) (is_ok result) (super_written from.now (is_ok result) (seen self.new)) }
        ensures cause { HasCause (faults self.old) (faults self.new) result };

    /// Makes durable what was written: after Ok a crash leaves, in every block but 16 and the lost ones, what a read gives.
    /// After a fault all that was written since the last flush is lost.
    fn flush(&mut self) -> Result<(), DiskFailed>
        ensures size { count self.new ≡ count self.old }
        ensures seen { seen self.new ≡ seen self.old }
        ensures lost { OnOk result (lost self.new ≡ lost self.old) }
        ensures told { Continues (told self.old) (told self.new) (is_ok result) (Call.Flush (is_ok result)) }
        ensures cause { HasCause (faults self.old) (faults self.new) result };

    /// Where the record is told, so is what a read gives, and the record leads to it.
    ghost reads_as_told: { (disk : Self) → IfTold (told disk) (λ record_. seen disk ≡ Option.Some (image_now record_)) };

    /// Where the record is told, it says which blocks are lost.
    ghost lost_as_told: { (disk : Self) → IfTold (told disk) (λ record_. lost disk ≡ (held_now record_).lost) };

    /// What a read gives is an image.
    ghost reads_blocks: { (disk : Self) → IfTold (seen disk) IsImage };

    /// What a read gives has as many blocks as the disk.
    ghost reads_all: { (disk : Self) → IfTold (seen disk) (λ image. length image ≡ count disk) };

    /// The image as it reads is one that a crash may leave now.
    ghost reads_as_left: { (disk : Self) → IfTold (told disk) (λ record_. Leaves (held_now record_) (image_now record_)) };
}
