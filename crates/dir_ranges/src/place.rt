/// Where a directory has a name: the directory's number, and its index of the name ("DIR_INDEX" of the on-disk format).
#[derive(Clone, Copy)]
pub struct Place {
    pub dir: u64,
    pub index: u64,
}
