ghost use Rattle.std.specs.Prelude.{◌≡◌};
ghost use Rattle.foreign_format.specs.Items.{inode_of};

use blk_base::{ItemFault, u32_at, u64_at};

/// What an inode item says, as far as a listing shows it: the number of names, and the size in bytes.
#[derive(Clone, Copy, Debug, PartialEq, Eq)]
pub struct Inode {
    pub links: u32,
    pub size: u64,
}

/// The inode in an item of 160 bytes ("INODE_ITEM" of the on-disk format).
pub fn read_inode(item: &[u8]) -> Result<Inode, ItemFault>
    ensures { result ≡ inode_of item.now }
{
    if item.len() != 160 {
        return Err(ItemFault::Size);
    }
    Ok(Inode {
        links: u32_at(item, 40),
        size: u64_at(item, 16),
    })
}
