ghost use Rattle.std.specs.Prelude.{◌≡◌, ◌≢◌, false, true, Some, None};
ghost use Rattle.std.specs.Borrow.{sem};
ghost use Rattle.blk_base.specs.Bytes.{zeros};
ghost use Rattle.block_table.specs.Slot.{free_slot, dirty_slot, is_whole};
ghost use Rattle.block_table.specs.SlotLends.{LendsBytes};
ghost use Rattle.block_table.specs.declared.state.SlotState.{SlotState};

use crate::state::SlotState;
use blk_base::Block;
use std::marker::Model;

/// A buffer: the box that stands in the table, and the one that a seal hands out.
#[derive(Drop)]
pub(crate) struct Buffer {
    pub kept: Box<Block>,
    pub other: Box<Block>,
}

/// A block of the table, with the boxes that are there.
#[derive(Drop)]
pub(crate) struct Slot {
    state: SlotState,
    stood: Option<bool>,
    kept: Option<Box<Block>>,
    other: Option<Box<Block>>,
}

impl Model for Slot {
    ghost use Rattle.std.specs.Prelude.{◌&&◌, not, is_some, []};
    ghost use Rattle.blk_base.specs.Bytes.{zeros};
    ghost use Rattle.block_table.specs.Slot.{BlockSlot, IsSlot, bytes_of};

    ghost Value = { BlockSlot };

    ghost view = { λ s. record { state = s.state; bytes = bytes_of s.kept; stood = s.stood; out = is_some s.kept && not (is_some s.other) } };

    ghost invariant = { λ s. IsSlot s.state s.stood (is_some s.kept) (is_some s.other) };
}

impl Slot {
    pub fn free() -> Slot
        ensures { result ≡ free_slot }
    {
        Slot {
            state: SlotState::Free,
            stood: None,
            kept: None,
            other: None,
        }
    }

    pub fn dirty(buffer: Buffer) -> Slot
        ensures { result ≡ dirty_slot buffer.kept.value }
    {
        Slot {
            state: SlotState::Dirty,
            stood: None,
            kept: Some(buffer.kept),
            other: Some(buffer.other),
        }
    }

    /// Dirty, with zeros.
    pub fn empty(mut buffer: Buffer) -> Slot
        ensures { result ≡ dirty_slot (zeros 4096) }
    {
        *buffer.kept = [0; 4096];
        Slot::dirty(buffer)
    }

    pub fn stand(mut buffer: Buffer, from: &Block, is_data: bool) -> Slot
        ensures { result ≡ record { state = SlotState.Live; bytes = from.now; stood = Some is_data; out = false } }
    {
        *buffer.kept = *from;
        Slot {
            state: SlotState::Live,
            stood: Some(is_data),
            kept: Some(buffer.kept),
            other: Some(buffer.other),
        }
    }

    pub fn state(&self) -> SlotState
        ensures state { result ≡ self.now.state }
        ensures whole { is_whole result ≡ true → self.now.out ≡ false }
    {
        self.state
    }

    /// The bytes.
    pub fn block(&self) -> &Block
        requires { self.now.state ≢ SlotState.Free }
        ensures { result.now ≡ self.now.bytes }
    {
        match &self.kept {
            Some(block) => block,
            None => unreachable!(),
        }
    }

    /// The bytes, lent for writing.
    pub fn block_mut(&mut self) -> &mut Block
        requires { self.old.state ≡ SlotState.Dirty }
        ensures* writes_back { sem 𝓛 (LendsBytes self.entry result) }
        ensures value { result.now ≡ self.old.bytes }
    {
        match &mut self.kept {
            Some(block) => block,
            None => unreachable!(),
        }
    }

    /// Whether a list that is out has one of its boxes.
    pub fn is_out(&self) -> bool
        ensures { result ≡ self.now.out }
    {
        self.kept.is_some() && self.other.is_none()
    }

    /// Whether it is Live by `stand`, and then whether as data.
    pub fn stood(&self) -> Option<bool>
        ensures { result ≡ self.now.stood }
    {
        self.stood
    }

    /// Hands out a box with its bytes.
    pub fn seal(&mut self) -> Box<Block>
        requires { self.old.state ≡ SlotState.Dirty }
        ensures bytes { result.value ≡ self.old.bytes }
        ensures slot { self.new ≡ record self.old { state = SlotState.Sealed; out = true } }
    {
        let Some(mut block) = self.other.take() else {
            unreachable!()
        };
        if let Some(kept) = &self.kept {
            *block = **kept;
        }
        self.state = SlotState::Sealed;
        block
    }

    /// Takes back the box that was handed out. A block that is Free keeps none.
    pub fn bring_back(&mut self, block: Box<Block>)
        ensures { self.new ≡ record self.old { out = false } }
    {
        if self.kept.is_some() {
            self.other = Some(block);
        }
    }

    /// The device has its bytes.
    pub fn settle(&mut self)
        requires sealed { self.old.state ≡ SlotState.Sealed }
        requires back { self.old.out ≡ false }
        ensures { self.new ≡ record self.old { state = SlotState.Live } }
    {
        self.state = SlotState::Live;
    }

    /// It is edited again.
    pub fn unseal(&mut self)
        requires sealed { self.old.state ≡ SlotState.Sealed }
        requires back { self.old.out ≡ false }
        ensures { self.new ≡ record self.old { state = SlotState.Dirty } }
    {
        self.state = SlotState::Dirty;
    }

    /// No current tree has it any more.
    pub fn let_go(&mut self)
        requires { self.old.state ≢ SlotState.Free }
        ensures { self.new ≡ record self.old { state = SlotState.LetGo; stood = None } }
    {
        self.state = SlotState::LetGo;
        self.stood = None;
    }

    /// Its buffer.
    pub fn into_buffer(self) -> Buffer
        requires taken { self.state ≢ SlotState.Free }
        requires back { self.out ≡ false }
    {
        let Slot { kept, other, .. } = self;
        match (kept, other) {
            (Some(kept), Some(other)) => Buffer { kept, other },
            _ => unreachable!(),
        }
    }
}
