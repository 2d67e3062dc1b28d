ghost use Rattle.std.specs.Prelude.{◌≡◌, ◌||◌, true, false, if◌then◌else◌};
ghost use Rattle.disk_memory.specs.Record.{lost_then, pending_then};

use crate::entry::Entry;
use blk_base::Block;

/// What calls leave of a block of a disk that drops what is pending when a flush fails.
#[derive(Drop)]
pub struct BlockState {
    pub pending: bool,
    pub lost: bool,
    /// The last bytes that a flush made durable.
    pub durable: Block,
    /// The bytes that a flush would make durable.
    written: Block,
}

impl BlockState {
    /// A block with these durable bytes.
    pub fn new(first: &Block) -> BlockState
        ensures pending { result.pending ≡ false }
        ensures lost { result.lost ≡ false }
    {
        BlockState {
            pending: false,
            lost: false,
            durable: *first,
            written: *first,
        }
    }

    /// After one call more; the block has this number.
    pub fn follow(&mut self, entry: &Entry, at: u32)
        ensures pending { self.new.pending ≡ pending_then entry.now at self.old.pending }
        ensures lost { self.new.lost ≡ lost_then entry.now at self.old.pending self.old.lost }
    {
        match entry {
            Entry::Write { place, bytes, ok } => {
                if place.at == at {
                    self.write(bytes, *ok);
                }
            }
            Entry::Super { .. } => {}
            Entry::Flush { ok } => self.flush(*ok),
        }
    }

    fn write(&mut self, bytes: &Block, ok: bool)
        ensures pending { self.new.pending ≡ true }
        ensures lost { self.new.lost ≡ (if ok then false else self.old.lost) }
    {
        self.pending = true;
        if ok {
            self.lost = false;
            self.written = *bytes;
        }
    }

    fn flush(&mut self, ok: bool)
        ensures pending { self.new.pending ≡ false }
        ensures lost { self.new.lost ≡ (if ok then self.old.lost else self.old.pending || self.old.lost) }
    {
        if ok {
            self.durable = self.written;
        } else {
            self.lost = self.pending || self.lost;
            self.written = self.durable;
        }
        self.pending = false;
    }
}
