ghost use Rattle.std.specs.Prelude.{◌≡◌, ◌≤◌, ◌<◌, ℕ, List, Some};
ghost use Rattle.std.specs.FinMap.{get};
ghost use Rattle.flat_model.specs.Volume.{Subvolume, Volume};
ghost use Rattle.flat_model.specs.Coherent.{IsCoherentVolume};
ghost use Rattle.logged_volume.specs.Accepted.{IsAccepted};
ghost use Rattle.logged_volume.specs.FlatLog.{empty_log};
ghost use Rattle.logged_volume.specs.Replay.{replay};
ghost use Rattle.logged_volume.specs.Weight.{AreMade, item_count, weight_of};
ghost use Rattle.commit_history.specs.declared.event.Event.{Event};
ghost use Rattle.commit_history.specs.State.{HasLog, SubLog, mounted_state};
ghost use Rattle.commit_history.specs.Effects.{state_of};
ghost use Rattle.commit_history.specs.Legal.{IsLegal};
ghost use Rattle.commit_room.specs.Ledger.{ledger_of};
ghost use Rattle.commit_logs.specs.Writes.{AreKept, AreWritten, FlatLogs, KeptLogs, no_logs};

/// Law: after each legal list of events, whatever flat logs its log steps wrote, each subvolume's log is that of its log
/// steps since the last full commit: replay of it over the committed subvolume leaves the logged one, and its items are at
/// most the weight of these steps (own).
pub fn histories_write_logs()
    ensures made { (volume : Volume) (events : List Event) (logs : FlatLogs) (id : ℕ) (log : SubLog) → IsCoherentVolume volume → IsLegal volume events
        → AreWritten (mounted_state volume) (λ id. empty_log) events logs → HasLog (state_of volume events) id log
        → AreMade log.committed ((ledger_of volume events).steps id) log.logged (logs id) }
    ensures replay { (volume : Volume) (events : List Event) (logs : FlatLogs) (id : ℕ) (log : SubLog) → IsCoherentVolume volume → IsLegal volume events
        → AreWritten (mounted_state volume) (λ id. empty_log) events logs → HasLog (state_of volume events) id log
        → replay log.committed (logs id) ≡ log.logged }
    ensures items { (volume : Volume) (events : List Event) (logs : FlatLogs) (id : ℕ) (log : SubLog) → IsCoherentVolume volume → IsLegal volume events
        → AreWritten (mounted_state volume) (λ id. empty_log) events logs → HasLog (state_of volume events) id log
        → item_count (logs id) ≤ weight_of log.committed ((ledger_of volume events).steps id) }
{}

/// Law: after each legal list of events, whatever flat logs its log steps wrote, each log that the superblock written last
/// has, as it was at its seal, is accepted over the committed subvolume, and replay of it leaves the durable one. The
/// same holds of each number that was sealed and isn't covered, with what the log had at its seal (own).
pub fn sealed_logs_are_replayed()
    ensures durable { (volume : Volume) (events : List Event) (kept : KeptLogs) (id : ℕ) (log : SubLog) → IsCoherentVolume volume → IsLegal volume events
        → AreKept (mounted_state volume) no_logs events kept → HasLog (state_of volume events) id log
        → (replay log.committed (kept.durable id) ≡ log.durable) × IsAccepted log.committed (kept.durable id) }
    ensures sealed { (volume : Volume) (events : List Event) (kept : KeptLogs) (id number : ℕ) (log : SubLog) (sub : Subvolume) → IsCoherentVolume volume
        → IsLegal volume events → AreKept (mounted_state volume) no_logs events kept → HasLog (state_of volume events) id log
        → log.covered < number → number < log.open_number → get log.sealed number ≡ Some sub
        → (replay log.committed (kept.sealed number id) ≡ sub) × IsAccepted log.committed (kept.sealed number id) }
{}
