//! Where a path leads.
ghost use Rattle.std.specs.Prelude.{◌≡◌};
ghost use Rattle.flat_model.specs.Step.{IsPath};
ghost use Rattle.flat_model.specs.Volume.{Subvolume, is_dir_at};
ghost use Rattle.flat_model.specs.Walk.{WalkEnd, walk};
ghost use Rattle.tree_range.specs.Shape.{IsTree};
ghost use Rattle.name_walk.specs.Ends.{end_view, target_of};
ghost use Rattle.name_walk.specs.Given.{GivesCoherent};
ghost use Rattle.name_walk.specs.Leads.{IsStep, next_end, slot_end};

use crate::found::{End, Target};
use crate::slots::{Lead, held_at, lead_at};
use blk_base::Name;
use blk_base::format::FIRST_FREE;
use block_table::{BlockTable, Tree};
use flat_model::Path;

/// Where a part of a path leads: as `End`, and of the inode in a slot whether it is a directory.
#[derive(Clone, Copy)]
pub(crate) enum Step<'p> {
    Root,
    Free {
        dir: u64,
        name: &'p [u8],
    },
    Taken {
        dir: u64,
        name: &'p [u8],
        lead: Lead,
    },
    Missing,
    Blocked,
}

/// Where one name leads from a directory on.
fn slot_step<'p>(table: &BlockTable, tree: &Tree, dir: u64, name: &'p [u8]) -> Step<'p>
    requires { IsTree table.now tree.now }
    ensures { (sub : Subvolume) → GivesCoherent table.now tree.now sub → IsStep sub (slot_end sub dir name.now) result }
{
    match lead_at(table, tree, dir, name) {
        Some(lead) => Step::Taken { dir, name, lead },
        None => Step::Free { dir, name },
    }
}

/// Where a path leads that goes on from such a step by one name.
fn next_step<'p>(table: &BlockTable, tree: &Tree, step: Step<'p>, name: &'p [u8]) -> Step<'p>
    requires { IsTree table.now tree.now }
    ensures { (sub : Subvolume) (end : WalkEnd) → GivesCoherent table.now tree.now sub → IsStep sub end step.entry
        → IsStep sub (next_end sub end name.now) result }
{
    match step {
        Step::Root => slot_step(table, tree, FIRST_FREE, name),
        Step::Taken { lead, .. } => {
            if lead.is_dir {
                slot_step(table, tree, lead.ino, name)
            } else {
                Step::Blocked
            }
        }
        Step::Free { .. } | Step::Missing => Step::Missing,
        Step::Blocked => Step::Blocked,
    }
}

/// Where a path leads.
fn steps<'p>(table: &BlockTable, tree: &Tree, path: &'p Path) -> Step<'p>
    requires { IsTree table.now tree.now }
    ensures step { (sub : Subvolume) → GivesCoherent table.now tree.now sub → IsStep sub (walk sub path.now) result }
    ensures path { IsPath path.now }
{
    let names: &[Name] = path.names();
    let mut step = Step::Root;
    for name in names {
        step = next_step(table, tree, step, name.as_bytes());
    }
    step
}

/// Where a path leads in the subvolume of a tree: one search for each name, and one or two for the last one's index
/// (after the kernel's path walk, without symlinks).
pub fn walk<'p>(table: &BlockTable, tree: &Tree, path: &'p Path) -> End<'p>
    requires { IsTree table.now tree.now }
    ensures end { (sub : Subvolume) → GivesCoherent table.now tree.now sub → end_view result ≡ walk sub path.now }
    ensures path { IsPath path.now }
{
    match steps(table, tree, path) {
        Step::Root => End::Root,
        Step::Free { dir, name } => End::Free { dir, name },
        Step::Taken { dir, name, lead } => End::Taken {
            dir,
            name,
            held: held_at(table, tree, dir, name, lead.ino),
        },
        Step::Missing => End::Missing,
        Step::Blocked => End::Blocked,
    }
}

/// Where a path leads in the subvolume of a tree, by the inode alone: one search for each name (after the kernel's path walk,
/// without symlinks).
pub fn walk_to(table: &BlockTable, tree: &Tree, path: &Path) -> Target
    requires { IsTree table.now tree.now }
    ensures { (sub : Subvolume) → GivesCoherent table.now tree.now sub → result ≡ target_of (walk sub path.now) }
{
    match steps(table, tree, path) {
        Step::Root => Target::Inode(FIRST_FREE),
        Step::Taken { lead, .. } => Target::Inode(lead.ino),
        Step::Free { .. } | Step::Missing => Target::Missing,
        Step::Blocked => Target::Blocked,
    }
}
