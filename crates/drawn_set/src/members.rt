//! The members of an fsync: those that the rules without slots draw, and all.
ghost use Rattle.std.specs.Prelude.{◌≡◌, true, false, IfOk};
ghost use Rattle.logged_volume.specs.Agreement.{AreStep};
ghost use Rattle.logged_volume.specs.Drawn.{least_set};

use crate::search::Search;
use blk_base::OutOfMemory;
use flat_model::NameView;
use std::alloc::Global;
use std::collections::BTreeSet;

/// The members of an fsync.
#[derive(Drop)]
pub(crate) struct Members {
    /// Those that the rules without slots draw.
    pub(crate) plain: BTreeSet<u64>,
    /// All.
    pub(crate) all: BTreeSet<u64>,
}

/// The members of an fsync of the target.
pub(crate) fn find_members<A: NameView, B: NameView>(
    alloc: Global,
    current: &A,
    recovered: &B,
    target: u64,
) -> Result<Members, OutOfMemory>
    requires { AreStep (A.sub current.now) (B.sub recovered.now) target }
    ensures plain { IfOk result (λ members. members.plain.keys ≡ least_set (A.sub current.now) (B.sub recovered.now) target false) }
    ensures all { IfOk result (λ members. members.all.keys ≡ least_set (A.sub current.now) (B.sub recovered.now) target true) }
{
    let mut search = Search::new(alloc);
    search.draw_first(alloc, current, recovered, target)?;
    let plain = search.members.clone()?;
    while let Some(member) = search.fresh.pop() {
        search.follow(alloc, current, recovered, member)?;
    }
    Ok(Members {
        plain,
        all: search.members,
    })
}
