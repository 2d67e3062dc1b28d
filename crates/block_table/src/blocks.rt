ghost use Rattle.std.specs.Prelude.{◌≡◌, ◌<◌, ◌++◌, ◌∷◌, [], length, slice_get, Some, None, IsTrue, ◌↔◌, IfOk, MatchOption};
ghost use Rattle.block_table.specs.Blocks.{with_block};

use blk_base::{Addr, Block, OutOfMemory};
use std::alloc::Global;
use std::marker::Model;

/// A list of blocks, each with the byte address where it is to stand, which a table of blocks lends and takes back.
#[derive(Drop)]
pub struct Blocks {
    items: Vec<(Addr, Box<Block>)>,
    room: u32,
}

impl Model for Blocks {
    ghost use Rattle.std.specs.Prelude.{◌≤◌, vec_len, vec_capacity};
    ghost use Rattle.block_table.specs.Blocks.{BlockList, pairs_of};

    ghost Value = { BlockList };

    ghost view = { λ l. record { pairs = pairs_of l.items.items; room = l.room } };

    ghost invariant = { λ l. (vec_len l.items ≤ l.room) × (l.room ≤ vec_capacity l.items) };
}

impl Blocks {
    /// An empty list with room for so many blocks.
    pub(crate) fn with_room(alloc: Global, room: u32) -> Result<Blocks, OutOfMemory>
        ensures { IfOk result (λ blocks. blocks ≡ record { pairs = []; room = room }) }
    {
        let items = Vec::with_capacity(alloc, room as usize)?;
        Ok(Blocks { items, room })
    }

    /// The number of blocks.
    pub fn len(&self) -> usize
        ensures { result ≡ length self.now.pairs }
    {
        self.items.len()
    }

    /// Whether there is no block.
    pub fn is_empty(&self) -> bool
        ensures { IsTrue result ↔ (self.now.pairs ≡ []) }
    {
        self.items.is_empty()
    }

    /// How many blocks it has room for.
    pub fn room(&self) -> u32
        ensures { result ≡ self.now.room }
    {
        self.room
    }

    /// The block at a place, and the byte address where it is to stand.
    pub fn get(&self, place: usize) -> (Addr, &Block)
        requires { place < length self.now.pairs }
        ensures { slice_get self.now.pairs place ≡ Some (result.0, result.1.now) }
    {
        let item = &self.items[place];
        (item.0, &item.1)
    }

    /// Puts a block at its end.
    pub(crate) fn push(&mut self, at: Addr, block: Box<Block>)
        requires { length self.old.pairs < self.old.room }
        ensures { self.new ≡ with_block self.old at block.value }
    {
        self.items.push_reserved((at, block));
    }

    /// Takes the last block out.
    pub(crate) fn pop(&mut self) -> Option<(Addr, Box<Block>)>
        ensures blocks { MatchOption result ((self.old.pairs ≡ []) × (self.new ≡ self.old)) (λ item. self.old ≡ with_block self.new item.0 item.1.value) }
    {
        self.items.pop()
    }
}
