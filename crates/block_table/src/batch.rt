ghost use Rattle.std.specs.Prelude.{◌≡◌, ◌<◌, ◌++◌, ◌∷◌, [], length, slice_get, Some, IsTrue, ◌↔◌, IfOk, MatchOption};

use crate::blocks::Blocks;
use blk_base::{Block, Marks, OutOfMemory, SubId};
use std::alloc::Global;
use std::marker::Model;

/// What a seal of one subvolume's log hands out: its blocks, to be written before a batch that takes its number.
#[derive(Drop)]
pub struct Part {
    /// The run's marks at the seal.
    pub marks: Marks,
    pub sub: SubId,
    /// The log's number, which the part was sealed with.
    pub number: u64,
    pub blocks: Blocks,
}

/// At most 32 parts, in the order in which they were put in.
#[derive(Drop)]
pub struct Parts {
    items: Vec<Part>,
}

impl Model for Parts {
    ghost use Rattle.std.specs.Prelude.{List, ◌≤◌, vec_len, vec_capacity};
    ghost use Rattle.block_table.specs.declared.batch.Part.{Part};

    ghost Value = { List Part };

    ghost view = { λ p. p.items.items };

    ghost invariant = { λ p. (vec_len p.items ≤ 32) × (32 ≤ vec_capacity p.items) };
}

impl Parts {
    /// No part, with room for 32.
    pub fn new(alloc: Global) -> Result<Parts, OutOfMemory>
        ensures { IfOk result (λ parts. parts ≡ []) }
    {
        let items = Vec::with_capacity(alloc, 32)?;
        Ok(Parts { items })
    }

    /// The number of parts.
    pub fn len(&self) -> usize
        ensures { result ≡ length self.now }
    {
        self.items.len()
    }

    /// Whether there is no part.
    pub fn is_empty(&self) -> bool
        ensures { IsTrue result ↔ (self.now ≡ []) }
    {
        self.items.is_empty()
    }

    /// The part at a place.
    pub fn get(&self, place: usize) -> &Part
        requires { place < length self.now }
        ensures { slice_get self.now place ≡ Some result.now }
    {
        &self.items[place]
    }

    /// Puts a part at the end.
    pub fn push(&mut self, part: Part)
        requires { length self.old < 32 }
        ensures { self.new ≡ self.old ++ part ∷ [] }
    {
        self.items.push_reserved(part);
    }

    /// Takes the last part out.
    pub fn pop(&mut self) -> Option<Part>
        ensures { MatchOption result ((self.old ≡ []) × (self.new ≡ [])) (λ part. self.old ≡ self.new ++ part ∷ []) }
    {
        self.items.pop()
    }
}

/// What a root or full commit hands out: its own blocks, the parts that it takes, and its superblock.
#[derive(Drop)]
pub struct Batch {
    /// The run's marks at the seal.
    pub marks: Marks,
    /// The seal's own number.
    pub seal: u64,
    /// Whether it is a full commit's.
    pub full: bool,
    pub parts: Parts,
    pub blocks: Blocks,
    pub superblock: Box<Block>,
}
