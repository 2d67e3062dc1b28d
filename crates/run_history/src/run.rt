ghost use Rattle.std.specs.Prelude.{◌≡◌, ◌↔◌, ◌≤◌, ◌<◌, ◌+◌, ◌++◌, ◌∷◌, [], length, IsTrue, OnOk, OnErr, slice_get, Some};

use blk_base::OutOfMemory;
use commit_history::Event;
use std::alloc::Global;
use std::marker::Model;

/// The events of a run, in their order, seen as their list with how many more may be put behind them without memory (own).
#[derive(Drop)]
pub struct Run {
    events: Vec<Event>,
}

impl Model for Run {
    ghost use Rattle.std.specs.Prelude.{◌-◌, vec_len, vec_capacity};
    ghost use Rattle.run_history.specs.Seen.{SeenRun};

    ghost Value = { SeenRun };

    ghost view = { λ run. record { events = run.events.items; spare = vec_capacity run.events - vec_len run.events } };
}

impl Run {
    /// A run without events.
    pub fn new(alloc: Global) -> Run
        ensures { result.events ≡ [] }
    {
        Run {
            events: Vec::new(alloc),
        }
    }

    /// Makes room for so many events more.
    ///
    /// # Errors
    ///
    /// Out of memory, where there is less room: nothing has changed.
    pub fn room(&mut self, alloc: Global, events: usize) -> Result<(), OutOfMemory>
        ensures events { self.new.events ≡ self.old.events }
        ensures room { OnOk result (events ≤ self.new.spare) }
        ensures spare { self.old.spare ≤ self.new.spare }
        ensures missing { OnErr result (self.old.spare < events) }
        ensures memory { OnErr result (self.new ≡ self.old) }
    {
        self.events.reserve(events)?;
        Ok(())
    }

    /// Puts an event at the end. Takes no memory.
    pub fn push(&mut self, event: Event)
        requires { 1 ≤ self.old.spare }
        ensures events { self.new.events ≡ self.old.events ++ event ∷ [] }
        ensures spare { self.new.spare + 1 ≡ self.old.spare }
    {
        self.events.push_reserved(event);
    }

    /// How many events may be put at the end without memory.
    pub fn spare(&self) -> usize
        ensures { result ≡ self.now.spare }
    {
        self.events.capacity() - self.events.len()
    }

    /// The number of events.
    pub fn len(&self) -> usize
        ensures { result ≡ length self.now.events }
    {
        self.events.len()
    }

    /// Whether no event came.
    pub fn is_empty(&self) -> bool
        ensures { IsTrue result ↔ (self.now.events ≡ []) }
    {
        self.events.is_empty()
    }

    /// The event at this place, counted from 0.
    pub fn event(&self, place: usize) -> &Event
        requires { place < length self.now.events }
        ensures { slice_get self.now.events place ≡ Some result.now }
    {
        &self.events[place]
    }
}
