ghost use Rattle.std.specs.Prelude.{◌≡◌, ◌<◌, ◌≤◌, ◌∷◌, ◌≢◌, ◌+◌, ◌==◌, [], ℕ, true, Some, Contains, length, drop, slice_index_or, slice_set, vec_len, vec_capacity, IfOk, if◌then◌else◌};
ghost use Rattle.disk_model.specs.Disk.{GoesOn, Call, held_now, lost_after, written, super_written};
ghost use Rattle.disk_memory.specs.Record.{IsStateOf, lost_by, reads_by, told_by, has_no_super};

use crate::block_state::BlockState;
use crate::blocks::Blocks;
use crate::entry::{Entry, Place};
use blk_base::{Block, OutOfMemory};
use std::alloc::Global;

/// What a disk in memory keeps: its blocks at first and now, and the record of the calls between.
#[derive(Drop)]
pub struct Kept {
    pub first: Blocks,
    pub image: Blocks,
    pub entries: Vec<Entry>,
    pub room: u32,
    /// How many entries there are up to the last write of the superblock that answered Ok.
    pub super_from: usize,
    ghost has_super: { 16 < length first.items.items },
    ghost reads: { image.items.items ≡ reads_by first.items.items entries.items },
    ghost fits: { vec_len entries ≤ room },
    ghost reserved: { room ≤ vec_capacity entries },
    ghost super_before: { super_from ≤ length entries.items },
    ghost super_last: { has_no_super (drop super_from entries.items) ≡ true },
}

impl Kept {
    /// A disk of these blocks, with room for so many calls.
    pub fn new(alloc: Global, image: Blocks, room: u32) -> Result<Kept, OutOfMemory>
        requires { 16 < length image.items.items }
        ensures first { IfOk result (λ kept. kept.first.items.items ≡ image.items.items) }
        ensures image { IfOk result (λ kept. kept.image.items.items ≡ image.items.items) }
        ensures entries { IfOk result (λ kept. kept.entries.items ≡ []) }
        ensures room { IfOk result (λ kept. kept.room ≡ room) }
    {
        Ok(Kept {
            first: image.copy(alloc)?,
            image,
            entries: Vec::with_capacity(alloc, room as usize)?,
            room,
            super_from: 0,
        })
    }

    /// Whether the record has no room for a further call.
    pub fn is_full(&self) -> bool
        ensures { result ≡ (vec_len self.now.entries == self.now.room) }
    {
        self.entries.len() == self.room as usize
    }

    /// What a read of this block gives: of a lost one what was durable when the flush failed.
    pub fn read(&self, at: u32) -> Block
        requires { at < length self.now.image.items.items }
        ensures { (Contains (lost_by self.now.first.items.items self.now.entries.items) at → ⊥) → result ≡ slice_index_or self.now.image.items.items at [] }
    {
        let found = *self.image.get(at);
        let state = self.state_of(at, &found);
        if state.lost { state.durable } else { found }
    }

    /// What is known of this block: whether it is pending or lost, and its durable bytes where what was pending at a flush
    /// that failed was dropped. `other`: its bytes at first, where the disk has no such block.
    pub fn state_of(&self, at: u32, other: &Block) -> BlockState
        ensures { IsStateOf (held_now (told_by self.now.first.items.items self.now.entries.items)) at result.pending result.lost }
    {
        let mut state = BlockState::new(match self.first.items.get(at as usize) {
            Some(first) => first,
            None => other,
        });
        for entry in &self.entries {
            state.follow(entry, at);
        }
        state
    }

    /// Records a write, which answered Ok or not.
    pub fn write(&mut self, at: u32, from: &Block, ok: bool)
        requires range { at < length self.old.image.items.items }
        requires not_super { at ≢ 16 }
        requires room { vec_len self.old.entries < self.old.room }
        ensures image { self.new.image.items.items ≡ (if ok then slice_set self.old.image.items.items at from.now else self.old.image.items.items) }
        ensures told { GoesOn (told_by self.old.first.items.items self.old.entries.items) (told_by self.new.first.items.items self.new.entries.items) (written at from.now ok (Some self.new.image.items.items) ∷ []) }
        ensures lost { lost_by self.new.first.items.items self.new.entries.items ≡ lost_after at ok (lost_by self.old.first.items.items self.old.entries.items) }
        ensures used { vec_len self.new.entries ≡ vec_len self.old.entries + 1 }
        ensures room { self.new.room ≡ self.old.room }
    {
        if ok {
            self.image.set(at, from);
        }
        let place = Place { at };
        self.entries.push_reserved(Entry::Write {
            place,
            bytes: *from,
            ok,
        });
    }

    /// Records a write of the superblock, which answered Ok or not.
    pub fn write_super(&mut self, from: &Block, ok: bool)
        requires room { vec_len self.old.entries < self.old.room }
        ensures image { self.new.image.items.items ≡ (if ok then slice_set self.old.image.items.items 16 from.now else self.old.image.items.items) }
        ensures told { GoesOn (told_by self.old.first.items.items self.old.entries.items) (told_by self.new.first.items.items self.new.entries.items) (super_written from.now ok (Some self.new.image.items.items) ∷ []) }
        ensures lost { lost_by self.new.first.items.items self.new.entries.items ≡ lost_by self.old.first.items.items self.old.entries.items }
        ensures used { vec_len self.new.entries ≡ vec_len self.old.entries + 1 }
        ensures room { self.new.room ≡ self.old.room }
    {
        let used = self.entries.len();
        if ok {
            self.image.set(16, from);
            self.super_from = used + 1;
        }
        self.entries
            .push_reserved(Entry::Super { bytes: *from, ok });
    }

    /// Records a flush, which answered Ok or not. All that was pending at one that failed is lost.
    pub fn flush(&mut self, ok: bool)
        requires room { vec_len self.old.entries < self.old.room }
        ensures image { self.new.image.items.items ≡ self.old.image.items.items }
        ensures told { GoesOn (told_by self.old.first.items.items self.old.entries.items) (told_by self.new.first.items.items self.new.entries.items) (Call.Flush ok ∷ []) }
        ensures lost { ok ≡ true → lost_by self.new.first.items.items self.new.entries.items ≡ lost_by self.old.first.items.items self.old.entries.items }
        ensures used { vec_len self.new.entries ≡ vec_len self.old.entries + 1 }
        ensures room { self.new.room ≡ self.old.room }
    {
        self.entries.push_reserved(Entry::Flush { ok });
    }
}
