//! The lowest faulty inode of a tree.
ghost use Rattle.std.specs.Prelude.{◌≡◌, [], IfOk};
ghost use Rattle.std.specs.Option.{option_map};
ghost use Rattle.blk_base.specs.declared.key.Ino.{Ino as InoNumber};
ghost use Rattle.table_volume.specs.Gives.{data_in};
ghost use Rattle.tree_check.specs.Items.{HaveKeys};
ghost use Rattle.tree_range.specs.Shape.{IsTree, tree_items};
ghost use Rattle.volume_image.specs.Subvolume.{Data};
ghost use Rattle.image_faults.specs.Faulty.{AreReadable, HasData};
ghost use Rattle.image_faults.specs.Lowest.{first_faulty};
ghost use Rattle.image_faults.specs.Said.{said_sub};
ghost use Rattle.coherent_names.specs.Names.{all_names};
ghost use Rattle.coherent_slots.specs.Slots.{IsLeastBad, IsLowered};
ghost use Rattle.coherent.specs.Answer.{IsCoherentAnswer, IsLeastSeen};
ghost use Rattle.coherent.specs.Passes.{HasExtentSize, IsSurvey, PassesItem};

use crate::content::{is_right_item, is_right_root};
use crate::survey::{Survey, survey_of};
use blk_base::format::FIRST_FREE;
use blk_base::{Ino, Key, OutOfMemory};
use block_table::{BlockTable, Tree};
use coherent_names::every_item;
use coherent_slots::lower;
use std::alloc::Global;
use tree_check::TreeFault;

/// The least inode with a bad name or item among those that were seen, and the items of a tree.
fn least_of_items<'t>(
    table: &'t BlockTable,
    tree: &Tree,
    survey: &Survey<'t>,
    least: Option<Ino>,
) -> Option<Ino>
    requires tree { IsTree table.now tree.now }
    requires keys { HaveKeys (tree_items table.now tree.now) }
    requires readable { AreReadable (tree_items table.now tree.now) }
    requires there { HasData (tree_items table.now tree.now) (data_in table.now) }
    requires survey { IsSurvey (tree_items table.now tree.now) (said_sub (tree_items table.now tree.now) (data_in table.now)) survey.now }
    requires least { IsLeastBad (tree_items table.now tree.now) (said_sub (tree_items table.now tree.now) (data_in table.now)) (all_names (tree_items table.now tree.now)) least }
    ensures { IsLeastSeen (tree_items table.now tree.now) table.now survey.now [] result }
{
    let mut least = least;
    for (key, bytes) in every_item(table, tree) {
        if !is_right_item(table, tree, survey, &key, bytes) {
            least = lower(least, Ino(key.objectid));
        }
    }
    least
}

/// The lowest faulty inode of a tree, if any is.
fn lowest_faulty(alloc: Global, table: &BlockTable, tree: &Tree) -> Result<Option<Ino>, OutOfMemory>
    requires tree { IsTree table.now tree.now }
    requires keys { HaveKeys (tree_items table.now tree.now) }
    requires readable { AreReadable (tree_items table.now tree.now) }
    requires there { HasData (tree_items table.now tree.now) (data_in table.now) }
    ensures { IfOk result (λ lowest. first_faulty (tree_items table.now tree.now) (data_in table.now) ≡ option_map (λ (ino : InoNumber). ino.0) lowest) }
{
    let (survey, least) = survey_of(alloc, table, tree)?;
    let least = least_of_items(table, tree, &survey, least);
    if is_right_root(table, tree) {
        return Ok(least);
    }
    Ok(lower(least, Ino(FIRST_FREE)))
}

/// Whether the items of a tree are those of a coherent subvolume: no inode is faulty ("File trees" of the Btrfs on-disk
/// format; own limits). Takes n log n steps for n items. Before it the calls `items` and `data` of `tree_check` are `Ok`:
/// the items can be read, and their data blocks stand in the table.
///
/// `Ok`: they are. `Err`: `Incoherent` with the lowest faulty inode, and `OutOfMemory` at any place; no other fault.
pub fn coherent(alloc: Global, table: &BlockTable, tree: &Tree) -> Result<(), TreeFault>
    requires tree { IsTree table.now tree.now }
    requires keys { HaveKeys (tree_items table.now tree.now) }
    requires readable { AreReadable (tree_items table.now tree.now) }
    requires there { HasData (tree_items table.now tree.now) (data_in table.now) }
    ensures { IsCoherentAnswer (tree_items table.now tree.now) (data_in table.now) result }
{
    match lowest_faulty(alloc, table, tree) {
        Ok(None) => Ok(()),
        Ok(Some(ino)) => Err(TreeFault::Incoherent(ino)),
        Err(_) => Err(TreeFault::OutOfMemory),
    }
}
