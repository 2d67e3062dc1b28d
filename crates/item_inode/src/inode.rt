ghost use Rattle.std.specs.Prelude.{◌≡◌, ◌≤◌, length};
ghost use Rattle.blk_base.specs.Items.{inode_bytes, inode_of};
ghost use Rattle.item_inode.specs.Inode.{answer_view, inode_view};

use blk_base::format::{DIR_MODE, FILE_MODE, INODE_ITEM_SIZE, LINK_MODE};
use blk_base::{ItemFault, put_bytes, put_u32, put_u64, u32_at, u64_at};

/// An inode item ("INODE_ITEM" of the on-disk format; the fields that aren't kept here are zero).
#[derive(Clone, Copy, Debug, PartialEq, Eq)]
pub struct InodeItem {
    /// The transaction that made the inode; in a log 0, where only its names are logged.
    pub generation: u64,
    /// The last transaction that changed it.
    pub transid: u64,
    /// In bytes: of a file its size, of a symlink its target's length, of a directory twice the lengths of its names.
    pub size: u64,
    /// In bytes: 4096 for each block of a file, the target's length of a symlink, 0 of a directory.
    pub nbytes: u64,
    /// The number of its names; 1 of a directory.
    pub nlink: u32,
    /// Octal 100644 of a file, 40755 of a directory, 120777 of a symlink.
    pub mode: u32,
}

impl InodeItem {
    /// Writes the item; what isn't kept becomes zero.
    pub fn encode(&self, into: &mut [u8; INODE_ITEM_SIZE])
        ensures { into.new ≡ inode_bytes (inode_view self.now) }
    {
        put_u64(into, 0, self.generation);
        put_u64(into, 8, self.transid);
        put_u64(into, 16, self.size);
        put_u64(into, 24, self.nbytes);
        put_bytes(into, 32, &[0; 8]);
        put_u32(into, 40, self.nlink);
        put_bytes(into, 44, &[0; 8]);
        put_u32(into, 52, self.mode);
        put_bytes(into, 56, &[0; 104]);
    }

    /// The item, or Size where there are not 160 bytes, or Kind for another mode. Takes any bytes.
    #[tactic(auto, unfolding(blk_base::specs::Items::inode_of))]
    pub fn decode(bytes: &[u8]) -> Result<InodeItem, ItemFault>
        ensures { answer_view result ≡ inode_of bytes.now }
    {
        if bytes.len() != INODE_ITEM_SIZE {
            return Err(ItemFault::Size);
        }
        let mode = u32_at(bytes, 52);
        if mode != FILE_MODE && mode != DIR_MODE && mode != LINK_MODE {
            return Err(ItemFault::Kind);
        }
        Ok(InodeItem {
            generation: u64_at(bytes, 0),
            transid: u64_at(bytes, 8),
            size: u64_at(bytes, 16),
            nbytes: u64_at(bytes, 24),
            nlink: u32_at(bytes, 40),
            mode,
        })
    }
}
