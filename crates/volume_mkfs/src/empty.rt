//! The blocks and the superblock of an empty volume.
ghost use Rattle.std.specs.Prelude.{◌≡◌, ◌≤◌, IfOk, length};
ghost use Rattle.table_volume.specs.Operated.{HasRoom};
ghost use Rattle.volume_mkfs.specs.Empty.{AreFresh};
ghost use Rattle.volume_mkfs.specs.Made.{IsNewBatch};

use bare_state::empty_tree;
use bare_volume::bare_states;
use blk_base::format::ROOT_TREE;
use blk_base::{Marks, OutOfMemory};
use block_table::{Batch, BlockTable, Parts, SubState};
use data_release::let_go_run;
use std::alloc::Global;
use volume_seal::{seal_volume, superblock_of};

/// The transaction that makes the volume.
const GENERATION: u64 = 1;

/// The buffers that the trees of 16 subvolumes and the root tree take at most, and one for the place of the root tree.
const BUFFERS: u32 = 564;

/// A table without blocks, with so many buffers as a new volume needs.
fn new_table(alloc: Global, blocks: u32) -> Result<BlockTable, OutOfMemory>
    requires least { 4096 ≤ blocks }
    ensures size { IfOk result (λ table. length table.slots ≡ blocks) }
    ensures room { IfOk result (λ table. HasRoom table 564) }
    ensures lists { IfOk result (λ table. 1 ≤ table.lists) }
{
    let mut table = BlockTable::new(alloc, blocks)?;
    table.reserve(alloc, BUFFERS)?;
    Ok(table)
}

/// The states of new subvolumes, whose trees stand behind a Free block, in which the root tree then begins (own).
fn fresh_states(
    alloc: Global,
    table: &mut BlockTable,
    subs: u8,
) -> Result<Vec<SubState>, OutOfMemory>
    requires at_least_one { 1 ≤ subs }
    requires at_most_16 { subs ≤ 16 }
    requires room { HasRoom table.old 564 }
    ensures fresh { IfOk result (λ states. AreFresh table.new states.items subs) }
    ensures size { length table.new.slots ≡ length table.old.slots }
    ensures lists { table.new.lists ≡ table.old.lists }
    ensures room { IfOk result (λ _. HasRoom table.new 3) }
{
    let place = empty_tree(table, ROOT_TREE);
    let states = bare_states(alloc, table, subs, GENERATION)?;
    let_go_run(table, place.root, 1);
    Ok(states)
}

/// The batch that commits to an empty volume with this uuid, of so many blocks of 4096 bytes and so many subvolumes.
pub(crate) fn empty_volume(
    alloc: Global,
    fsid: &[u8; 16],
    blocks: u32,
    subs: u8,
) -> Result<Batch, OutOfMemory>
    requires least { 4096 ≤ blocks }
    requires most { blocks ≤ 65536 }
    requires some { 1 ≤ subs }
    requires few { subs ≤ 16 }
    ensures { IfOk result (IsNewBatch fsid.now blocks subs) }
{
    let mut table = new_table(alloc, blocks)?;
    let mut out = table.list();
    let states = fresh_states(alloc, &mut table, subs)?;
    let root = seal_volume(&mut table, &states, fsid, GENERATION, &mut out);
    let used = out.len() as u32;
    let superblock = superblock_of(&table, &root, fsid, GENERATION, used);
    let mut block = Box::new(alloc, [0; 4096])?;
    superblock.encode(&mut block);
    Ok(Batch {
        marks: Marks {
            done: 0,
            tried: 0,
            full: 0,
        },
        seal: 1,
        full: true,
        parts: Parts::new(alloc)?,
        blocks: out,
        superblock: block,
    })
}
