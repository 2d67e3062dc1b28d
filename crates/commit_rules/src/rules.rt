//! The rules, the first that holds before the others.
ghost use Rattle.std.specs.Prelude.{◌≡◌, ◌+◌, ◌*◌, ◌^◌, ◌<◌};
ghost use Rattle.logged_volume.specs.Rules.{room_reason, step_need};
ghost use Rattle.commit_rules.specs.Rule.{IsReasonOf, room_of};

use drawn_set::Drawn;
use flat_model::Reason;

/// The most inodes that an fsync may draw by slots alone (own).
const MOST_CONFLICTS: usize = 10;

/// The blocks that a log step needs beside those that its size asks for (own).
const SPARE_BLOCKS: u64 = 1280;

/// What the rules on room and on failures look at.
#[derive(Clone, Copy, Debug, PartialEq, Eq)]
pub struct Numbers {
    /// Free blocks.
    pub free: u64,
    /// Tree blocks of the committed trees.
    pub tree_blocks: u64,
    /// The weight of all that was drawn since the last full commit.
    pub weight: u64,
    /// How many device calls failed since the last full commit.
    pub failed: u64,
}

/// The blocks that have to be free for a log step (own).
fn step_need(numbers: &Numbers) -> u64
    requires { step_need (room_of numbers.now) < 2 ^ 64 }
    ensures { result ≡ step_need (room_of numbers.now) }
{
    2 * numbers.tree_blocks + 11 * numbers.weight + SPARE_BLOCKS
}

/// The reason by the rules on room and on failures.
fn room_rule(numbers: &Numbers) -> Option<Reason>
    requires { step_need (room_of numbers.now) < 2 ^ 64 }
    ensures { result ≡ room_reason (room_of numbers.now) }
{
    let need = step_need(numbers);
    if numbers.free < need {
        return Some(Reason::Space {
            free: numbers.free,
            need,
        });
    }
    if 0 < numbers.failed {
        return Some(Reason::FailedLog(numbers.failed));
    }
    None
}

/// The reason for which an fsync that draws this is made as a full commit, where there is one: more than ten inodes drawn by
/// slots alone, then a stranded directory, then too little room, then a device call that failed (own).
pub fn rule(drawn: &Drawn, numbers: &Numbers) -> Option<Reason>
    requires { 2 * numbers.now.tree_blocks + 11 * numbers.now.weight + 1280 < 2 ^ 64 }
    ensures { IsReasonOf drawn.now numbers.now result }
{
    let conflicts = drawn.conflicts.len();
    if MOST_CONFLICTS < conflicts {
        return Some(Reason::Conflicts(conflicts as u64));
    }
    if let Some(dir) = drawn.stranded {
        return Some(Reason::GoneDir(dir));
    }
    room_rule(numbers)
}
