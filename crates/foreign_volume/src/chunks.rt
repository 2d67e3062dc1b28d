//! The chunks of the superblock and those of the chunk tree.
ghost use Rattle.std.specs.Prelude.{◌≡◌, ◌≢◌, ◌≤◌, [], All, IfOk, IfErr, Err};
ghost use Rattle.blk_base.specs.Bytes.{field};
ghost use Rattle.blk_base.specs.Causes.{HasRisen};
ghost use Rattle.disk_model.specs.Disk.{IfTold, known};
ghost use Rattle.foreign_format.specs.declared.fault.ReadFault.{ReadFault};
ghost use Rattle.foreign_format.specs.Answer.{Answers};
ghost use Rattle.foreign_format.specs.Chunks.{IsOnDisk, array_rows, in_row};
ghost use Rattle.foreign_tree.specs.Tree.{volume_value};
ghost use Rattle.foreign_volume.specs.Opened.{array_chunks, array_of, size_of, tree_chunks, volume_with};

use blk_base::format::BLOCK_SIZE;
use blk_base::{Block, Key, OutOfMemory, u32_at};
use disk_model::Disk;
use foreign_format::{
    Chunk, ChunkRow, ReadFault, Superblock, array_rows, chunk_row, mapped, put_row,
};
use foreign_tree::{Visit, Volume, Wanted, walk};
use std::alloc::Global;

/// The key type of a chunk item.
const CHUNK_ITEM: u8 = 228;

/// The rows of the chunk items that were shown, in ascending order.
#[derive(Drop)]
pub(crate) struct ChunkRows {
    pub rows: Vec<ChunkRow>,
}

impl Visit for ChunkRows {
    ghost use Rattle.foreign_volume.specs.Opened.{chunk_rows};

    ghost has_met = { λ self items. self.rows.items ≡ chunk_rows items };

    fn meet(&mut self, _leaf: u64, _place: u64, key: &Key, data: &[u8]) -> Result<(), OutOfMemory> {
        if key.kind == CHUNK_ITEM {
            put_row(&mut self.rows, chunk_row(key.offset, data))?;
        }
        Ok(())
    }
}

/// The chunks of rows, on a disk of so many blocks.
fn chunks_of(alloc: Global, rows: &[ChunkRow], blocks: u32) -> Result<Vec<Chunk>, ReadFault>
    ensures answer { Answers (λ chunks. chunks.items) result (in_row (size_of blocks) 0 [] rows.now) }
    ensures on_disk { IfOk result (λ chunks. All (IsOnDisk (size_of blocks)) chunks.items) }
    ensures no_disk { IfErr result (λ fault. fault ≢ ReadFault.Disk) }
{
    match mapped(alloc, rows, u64::from(blocks) * BLOCK_SIZE) {
        // No disk is read here.
        Err(ReadFault::Disk) => Err(ReadFault::OutOfMemory),
        answer => answer,
    }
}

/// The bytes of the system chunks in the superblock's block.
fn array_of(block: &Block) -> &[u8]
    requires { field 4 block.now 160 ≤ 2048 }
    ensures { result.now ≡ array_of block.now }
{
    let size = u32_at(block, 0xa0) as usize;
    &block[0x32b..0x32b + size]
}

/// The rows of the chunks in the superblock's block.
fn array_rows_of(alloc: Global, block: &Block) -> Result<Vec<ChunkRow>, ReadFault>
    requires { field 4 block.now 160 ≤ 2048 }
    ensures answer { Answers (λ rows. rows.items) result (array_rows 32 [] (array_of block.now)) }
    ensures no_disk { IfErr result (λ fault. fault ≢ ReadFault.Disk) }
{
    match array_rows(alloc, array_of(block)) {
        // No disk is read here.
        Err(ReadFault::Disk) => Err(ReadFault::OutOfMemory),
        answer => answer,
    }
}

/// The chunks in the superblock's block.
pub(crate) fn array_chunks(
    alloc: Global,
    block: &Block,
    blocks: u32,
) -> Result<Vec<Chunk>, ReadFault>
    requires { field 4 block.now 160 ≤ 2048 }
    ensures answer { Answers (λ chunks. chunks.items) result (array_chunks blocks block.now) }
    ensures on_disk { IfOk result (λ chunks. All (IsOnDisk (size_of blocks)) chunks.items) }
    ensures no_disk { IfErr result (λ fault. fault ≢ ReadFault.Disk) }
{
    let rows = array_rows_of(alloc, block)?;
    chunks_of(alloc, &rows, blocks)
}

/// What the trees of a volume with this superblock are read by, where these are its chunks.
pub(crate) fn volume_with(superblock: &Superblock, chunks: Vec<Chunk>) -> Volume
    ensures value { volume_value result ≡ volume_with superblock.now chunks.items }
    ensures chunks { result.chunks.items ≡ chunks.items }
    ensures node_size { result.node_size ≡ superblock.now.node_size }
{
    Volume {
        fsid: superblock.fsid,
        node_size: superblock.node_size,
        chunks,
    }
}

/// The chunks of the chunk tree, which is read by the superblock's.
pub(crate) fn tree_chunks<D: Disk>(
    alloc: Global,
    disk: &mut D,
    superblock: &Superblock,
    chunks: Vec<Chunk>,
) -> Result<Vec<Chunk>, ReadFault>
    requires on_disk { All (IsOnDisk (size_of (D.count disk.old))) chunks.items }
    requires least { 4096 ≤ superblock.now.node_size }
    requires most { superblock.now.node_size ≤ 65536 }
    ensures answer { IfTold (known (D.seen disk.old) (D.lost disk.old)) (λ image. Answers (λ chunks. chunks.items) result (tree_chunks (D.count disk.old) image superblock.now chunks.items)) }
    ensures on_disk { IfOk result (λ found. All (IsOnDisk (size_of (D.count disk.old))) found.items) }
    ensures disk_fault { (result ≡ Err ReadFault.Disk) → HasRisen (D.faults disk.old) (D.faults disk.new) }
    ensures size { D.count disk.new ≡ D.count disk.old }
    ensures seen { D.seen disk.new ≡ D.seen disk.old }
    ensures lost { D.lost disk.new ≡ D.lost disk.old }
    ensures told { D.told disk.new ≡ D.told disk.old }
    ensures counted { D.faults disk.old ≤ D.faults disk.new }
{
    let volume = volume_with(superblock, chunks);
    let root = Wanted {
        at: superblock.chunk_root,
        generation: None,
        level: superblock.chunk_root_level,
    };
    let mut found = ChunkRows {
        rows: Vec::new(alloc),
    };
    walk(alloc, disk, &volume, &root, &mut found)?;
    chunks_of(alloc, &found.rows, disk.blocks())
}
