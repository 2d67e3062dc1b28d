//! A case: an image, and the trees that are loaded of it and checked.
use crate::checks::check_tree;
use crate::fault::Fault;
use crate::image::{BLOCKS, CaseDisk, Image};
use crate::line::Line;
use anyhow::{Result, bail};
use blk_base::Want;
use block_table::{BlockTable, Tree};
use std::alloc::{AllocError, Global};
use tree_check::once;
use tree_load::load;
use tree_range::is_tree;

/// The image, and the table with the trees that were loaded.
#[derive(Drop)]
struct Case {
    image: Image,
    table: BlockTable,
    trees: Vec<Tree>,
}

/// The first fault of a tree that was loaded.
fn check_loaded(
    alloc: Global,
    disk: &mut CaseDisk,
    table: &mut BlockTable,
    tree: &Tree,
) -> Result<Option<Fault>> {
    if table.blocks() > BLOCKS || !is_tree(table, tree) {
        bail!("no tree");
    }
    match check_tree(alloc, disk, table, tree) {
        Ok(()) => Ok(None),
        Err(fault) => Ok(Some(Fault::Tree(tree.owner, fault))),
    }
}

impl Case {
    /// Loads the tree whose root is read with `want`.
    fn load(&mut self, alloc: Global, want: &Want) -> Result<Option<Fault>> {
        if self.table.blocks() > BLOCKS {
            bail!("no table");
        }
        match load(alloc, &mut self.image.disk, &mut self.table, want) {
            Ok(tree) => {
                self.trees.push(tree).map_err(AllocError::from)?;
                Ok(None)
            }
            Err(fault) => Ok(Some(Fault::Load(fault))),
        }
    }

    /// Checks the loaded trees one after the other.
    fn check(&mut self, alloc: Global) -> Result<Option<Fault>> {
        for tree in &self.trees {
            let found = check_loaded(alloc, &mut self.image.disk, &mut self.table, tree)?;
            if found.is_some() {
                return Ok(found);
            }
        }
        Ok(None)
    }

    /// Checks that no two extents of two loaded trees name one block.
    fn once(&self, alloc: Global) -> Result<Option<Fault>> {
        let [first, second] = self.trees.as_slice() else {
            bail!("not two trees");
        };
        if !is_tree(&self.table, first) || !is_tree(&self.table, second) {
            bail!("no tree");
        }
        match once(alloc, &self.table, &[*first, *second]) {
            Ok(()) => Ok(None),
            Err(fault) => Ok(Some(Fault::Tree(second.owner, fault))),
        }
    }

    /// What a line finds: `load BLOCK GENERATION OWNER LEVEL` loads the tree with this root, `check` checks each loaded tree
    /// with its items, data blocks and inodes, and `once` whether two loaded trees name a data block twice. Any other line
    /// changes the image; an empty one and one that begins with `volume` do nothing.
    fn step(&mut self, alloc: Global, line: &Line) -> Result<Option<Fault>> {
        match line.word(0).as_bytes() {
            b"load" => self.load(alloc, &line.want()?),
            b"check" => self.check(alloc),
            b"once" => self.once(alloc),
            b"" | b"volume" => Ok(None),
            _ => {
                self.image.change(alloc, line)?;
                Ok(None)
            }
        }
    }

    /// What these lines find first.
    fn run(&mut self, alloc: Global, lines: &str, turn: u64) -> Result<Option<Fault>> {
        for line in lines.split('\n') {
            let found = self.step(alloc, &Line::read(alloc, line, turn)?)?;
            if found.is_some() {
                return Ok(found);
            }
        }
        Ok(None)
    }
}

/// The first fault of a case, if it has one: the lines of its volume are done before its own, with the number that `#` is.
pub fn answer(alloc: Global, volume: &str, lines: &str, turn: u64) -> Result<Option<Fault>> {
    let mut case = Case {
        image: Image::new(alloc),
        table: BlockTable::new(alloc, BLOCKS)?,
        trees: Vec::new(alloc),
    };
    match case.run(alloc, volume, turn)? {
        Some(fault) => Ok(Some(fault)),
        None => case.run(alloc, lines, turn),
    }
}
