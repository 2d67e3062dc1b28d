ghost use Rattle.std.specs.Prelude.{IfOk};
ghost use Rattle.std.specs.List.Sorted.{IsNonDecreasingBy};
ghost use Rattle.std.proofs.Props.{props};
ghost use Rattle.foreign_items.specs.declared.rows.ExtentRow.{ExtentRow};
ghost use Rattle.foreign_items.specs.declared.rows.InodeRow.{InodeRow};
ghost use Rattle.foreign_items.specs.declared.rows.NameRow.{NameRow};

use crate::by_inode::sort_by_inode;
use blk_base::OutOfMemory;
use foreign_items::{ExtentRow, InodeRow, NameRow, SubvolumeItems};

/// The inodes, names and extents of a subvolume by their items, each in ascending order of the inodes to which they belong, and
/// the subvolume's number.
#[derive(Drop)]
pub(crate) struct Tree {
    pub sub: u64,
    pub inodes: Vec<InodeRow>,
    pub names: Vec<NameRow>,
    pub extents: Vec<ExtentRow>,
    ghost inodes_rise: { IsNonDecreasingBy (λ (row : InodeRow). row.key.objectid) inodes.items } by { Prim.hlevel props },
    ghost names_rise: { IsNonDecreasingBy (λ (row : NameRow). row.key.objectid) names.items } by { Prim.hlevel props },
    ghost extents_rise: { IsNonDecreasingBy (λ (row : ExtentRow). row.key.objectid) extents.items } by { Prim.hlevel props },
}

impl Tree {
    ghost use Rattle.foreign_listing.specs.View.{IsTreeOf};

    /// A subvolume with these items.
    pub(crate) fn new(sub: u64, items: SubvolumeItems) -> Result<Tree, OutOfMemory>
        ensures { IfOk result (λ tree. IsTreeOf sub items tree) }
    {
        let mut inodes = items.inodes;
        sort_by_inode(&mut inodes)?;
        let mut names = items.names;
        sort_by_inode(&mut names)?;
        let mut extents = items.extents;
        sort_by_inode(&mut extents)?;
        Ok(Tree {
            sub,
            inodes,
            names,
            extents,
        })
    }
}
