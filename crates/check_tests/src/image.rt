//! An image that lines make.
use crate::line::Line;
use crate::tree_block::{Rows, leaf_of, node_of, put_sum};
use anyhow::{Result, bail};
use blk_base::{Block, put_bytes};
use disk_memory::ListDisk;
use rand_core::{Rng, SeedableRng};
use rand_pcg::Lcg64Xsh32;
use std::alloc::{AllocError, Global};
use std::collections::BTreeMap;

/// The blocks of the disk of a case.
pub const BLOCKS: u32 = 256;

/// The disk of a case.
pub type CaseDisk = ListDisk<BLOCKS>;

/// The blocks that were made, and the rows of the next tree block.
#[derive(Drop)]
pub struct Image {
    pub disk: CaseDisk,
    rows: Rows,
}

/// Fills a block from this place on with random bytes of a seed.
fn fill(block: &mut Block, from: usize, seed: u64) {
    let mut rng = Lcg64Xsh32::seed_from_u64(seed);
    if from < block.len() {
        rng.fill_bytes(&mut block[from..]);
    }
}

/// Writes bytes at a place of a block, if they have room there.
fn poke(block: &mut Block, at: usize, bytes: &[u8]) -> Result<()> {
    if at > 4096 || bytes.len() > 4096 - at {
        bail!("bytes past the block's end");
    }
    put_bytes(block, at, bytes);
    Ok(())
}

impl Image {
    /// An image of zeros.
    pub fn new(alloc: Global) -> Image {
        Image {
            disk: ListDisk::new(alloc, 0),
            rows: BTreeMap::new(alloc),
        }
    }

    /// The block with this number.
    fn block(&self, number: u32) -> Block {
        match self.disk.block(number) {
            Some(block) => *block,
            None => [0; 4096],
        }
    }

    /// Changes the rows by a line: `item OBJECTID TYPE OFFSET BYTES` puts the bytes under the key, `without OBJECTID TYPE
    /// OFFSET` takes away what is under it, and `empty` takes all away. Answers whether the line is one of these.
    fn change_rows(&mut self, alloc: Global, line: &Line) -> Result<bool> {
        match line.word(0).as_bytes() {
            b"item" => {
                let (key, bytes) = (line.key()?, line.bytes(alloc, 4)?);
                self.rows.insert(key, bytes).map_err(AllocError::from)?;
            }
            b"without" => {
                self.rows.remove(&line.key()?);
            }
            b"empty" => self.rows = BTreeMap::new(alloc),
            _ => return Ok(false),
        }
        Ok(true)
    }

    /// The block that a line asks for: `leaf BLOCK GENERATION OWNER LEVEL` and `node BLOCK GENERATION OWNER LEVEL` make a
    /// tree block of the rows; `poke BLOCK OFFSET BYTES` writes bytes into a block, `noise BLOCK OFFSET SEED` random ones from
    /// a place on, and `sum BLOCK` makes its sum right.
    fn changed_block(&self, alloc: Global, line: &Line) -> Result<Block> {
        let mut block = self.block(line.block(1)?);
        match line.word(0).as_bytes() {
            b"leaf" => return leaf_of(&line.want()?, &self.rows),
            b"node" => return node_of(&line.want()?, &self.rows),
            b"poke" => {
                let bytes = line.bytes(alloc, 3)?;
                poke(&mut block, line.offset(2)?, &bytes)?;
            }
            b"noise" => fill(&mut block, line.offset(2)?, line.number(3)?),
            b"sum" => put_sum(&mut block),
            _ => bail!("no line of a case: {}", line.word(0)),
        }
        Ok(block)
    }

    /// Changes the rows or a block as a line says.
    pub fn change(&mut self, alloc: Global, line: &Line) -> Result<()> {
        if !self.change_rows(alloc, line)? {
            let block = self.changed_block(alloc, line)?;
            self.disk.put(line.block(1)?, &block)?;
        }
        Ok(())
    }
}
