//! The subvolume of an operation's places.
ghost use Rattle.std.specs.Prelude.{◌≡◌, ◌==◌, position};
ghost use Rattle.flat_model.specs.Step.{is_within_sub, place_of};

use blk_base::SubId;
use block_table::SubState;
use flat_model::Op;

/// The subvolume of an operation's place, the first where it has two.
pub(crate) fn sub_of(op: &Op) -> SubId
    ensures { result ≡ (place_of op.now).sub }
{
    match op {
        Op::Create(place)
        | Op::Mkdir(place)
        | Op::Symlink(place, _)
        | Op::Link(place, _)
        | Op::Unlink(place)
        | Op::Rmdir(place)
        | Op::Rename(place, _)
        | Op::Exchange(place, _)
        | Op::Lookup(place)
        | Op::Write(place, _, _)
        | Op::Truncate(place, _)
        | Op::Read(place, _, _)
        | Op::SetAttr(place, _, _)
        | Op::DelAttr(place, _)
        | Op::GetAttr(place, _) => place.sub,
    }
}

/// Whether the places of an operation are of one subvolume.
pub(crate) fn is_within_sub(op: &Op) -> bool
    ensures { result ≡ is_within_sub op.now }
{
    match op {
        Op::Link(old, new) | Op::Rename(old, new) => old.sub == new.sub,
        Op::Exchange(one, two) => one.sub == two.sub,
        _ => true,
    }
}

/// The place among the states of the one of a subvolume, where it has one.
pub(crate) fn place_among(states: &[SubState], sub: SubId) -> Option<usize>
    ensures { result ≡ position (λ state. state.tree.owner == sub.0) states.now }
{
    states.iter().position(|state| state.tree.owner == sub.0)
}
