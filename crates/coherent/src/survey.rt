//! What the names of a tree say of its inodes.
ghost use Rattle.std.specs.Prelude.{IfOk};
ghost use Rattle.tree_check.specs.Items.{HaveKeys};
ghost use Rattle.tree_range.specs.Shape.{IsTree, tree_items};
ghost use Rattle.volume_image.specs.Subvolume.{Data};
ghost use Rattle.image_faults.specs.Said.{said_sub};
ghost use Rattle.coherent_names.specs.Names.{all_names};
ghost use Rattle.coherent_slots.specs.Slots.{IsLeastBad};
ghost use Rattle.coherent.specs.Passes.{IsSurvey};

use blk_base::{Ino, OutOfMemory};
use block_table::{BlockTable, Tree};
use coherent_names::names_of;
use coherent_slots::{Slots, slots_of};
use coherent_sums::{Links, links_of};
use coherent_ways::{Reached, reached_by, sort_by_directory};
use std::alloc::Global;

/// The slots of right names, how many names each inode has, and the inodes from which names lead up to the root directory.
#[derive(Drop)]
pub(crate) struct Survey<'t> {
    pub(crate) slots: Slots<'t>,
    pub(crate) links: Links,
    pub(crate) reached: Reached,
}

/// What the names of a tree say, and the least inode that has a bad name, if any has.
pub(crate) fn survey_of<'t>(
    alloc: Global,
    table: &'t BlockTable,
    tree: &Tree,
) -> Result<(Survey<'t>, Option<Ino>), OutOfMemory>
    requires tree { IsTree table.now tree.now }
    requires keys { HaveKeys (tree_items table.now tree.now) }
    ensures survey { IfOk result (λ found. (blocks : Data) → IsSurvey (tree_items table.now tree.now) (said_sub (tree_items table.now tree.now) blocks) found.0) }
    ensures least { IfOk result (λ found. (blocks : Data) → IsLeastBad (tree_items table.now tree.now) (said_sub (tree_items table.now tree.now) blocks) (all_names (tree_items table.now tree.now)) found.1) }
{
    let mut names = names_of(alloc, table, tree)?;
    let (slots, least) = slots_of(alloc, table, tree, &names)?;
    let links = links_of(alloc, &names)?;
    sort_by_directory(&mut names);
    let reached = reached_by(alloc, &names)?;
    let survey = Survey {
        slots,
        links,
        reached,
    };
    Ok((survey, least))
}
