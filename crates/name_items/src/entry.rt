use blk_base::Ino;

/// A name with all that its items tell: the directory that has it, its index there, its 1 to 255 bytes, the inode that it
/// leads to, and whether its entry with the inode is near, in an INODE_REF, or far, in an INODE_EXTREF ("INODE_REF",
/// "INODE_EXTREF", "DIR_ITEM" and "DIR_INDEX" of the on-disk format).
#[derive(Clone, Copy, Debug)]
pub struct NameEntry<'a> {
    pub dir: Ino,
    pub index: u64,
    pub bytes: &'a [u8],
    pub ino: Ino,
    pub near: bool,
}
