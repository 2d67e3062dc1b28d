//! Holes of a file that get the blocks of a text.
ghost use Rattle.std.specs.Prelude.{◌≡◌, ◌≢◌, ◌↔◌, ◌≤◌, ◌<◌, ◌+◌, ◌-◌, ◌*◌, ◌^◌, ℕ, length};
ghost use Rattle.block_table.specs.Table.{free_blocks};
ghost use Rattle.tree_range.specs.Shape.{tree_items};
ghost use Rattle.file_extents.specs.Extents.{AreHoles, Contents, HasRun, HoldIn, IsContentEdit, IsHeld, Joins, StandsBefore, text_block, with_blocks};

use crate::fill::joined;
use crate::fresh::fresh_run;
use crate::run::{Run, write_run};
use blk_base::{Ino, Text};
use block_table::{BlockTable, Tree};

/// How many blocks a run may get that goes on from a run, or is one of its own where this has 4096.
fn room_behind(front: &Run) -> u64
    ensures some { 1 ≤ result }
    ensures few { result ≤ 4096 }
    ensures fits { front.now.blocks < 4096 → front.now.blocks + result ≤ 4096 }
{
    if front.blocks < 4096 {
        4096 - front.blocks
    } else {
        4096
    }
}

/// Gives blocks of a file that are holes, from a number on and below another, new blocks with what a text has for them, which
/// are Dirty then: at least one, and as many as are Free one behind the other. The run in front that they follow on grows by
/// them; where there is none, `front` has no block. It answers the run that they are in, which ends with the last of them;
/// all other runs stay. It takes 17 blocks and buffers at most, and one for each of them.
pub fn put_text(
    table: &mut BlockTable,
    tree: &mut Tree,
    ino: Ino,
    running: u64,
    front: Run,
    number: u64,
    end: u64,
    offset: u64,
    text: &Text,
) -> Run
    requires held { IsHeld table.old tree.old }
    requires order { number < end }
    requires small { end < 2 ^ 52 }
    requires begins { offset ≤ 4096 * number }
    requires covers { 4096 * end ≤ offset + length text.now }
    requires holes { (contents : Contents) × HoldIn table.old tree.old ino.0 contents × AreHoles contents number end }
    requires front { StandsBefore (HasRun (tree_items table.old tree.old) ino.0) front.begin front.at.0 front.blocks }
    requires spare { 17 + (end - number) ≤ table.old.spare }
    requires free { 17 + (end - number) ≤ free_blocks table.old }
    ensures some { number < result.begin + result.blocks }
    ensures within { result.begin + result.blocks ≤ end }
    ensures edit { IsContentEdit table.old table.new tree.old tree.new running ino.0 (17 + (result.begin + result.blocks - number)) }
    ensures contents { (contents : Contents) → HoldIn table.old tree.old ino.0 contents → AreHoles contents number end
        → HoldIn table.new tree.new ino.0 (with_blocks contents (text_block offset text.now) number (result.begin + result.blocks)) }
    ensures run { HasRun (tree_items table.new tree.new) ino.0 result.begin result.at.0 result.blocks }
    ensures others { (begin at count : ℕ) → begin ≢ result.begin
        → HasRun (tree_items table.new tree.new) ino.0 begin at count ↔ HasRun (tree_items table.old tree.old) ino.0 begin at count }
    ensures joined { (at one : ℕ) × Joins front.begin front.at.0 front.blocks number at result.begin result.at.0 one }
{
    let most = room_behind(&front).min(end - number);
    let fresh = fresh_run(table, number, most, offset, text);
    let first = joined(front, number, fresh.at);
    let run = Run {
        blocks: first.blocks + fresh.blocks - 1,
        ..first
    };
    write_run(table, tree, ino, running, run);
    run
}
