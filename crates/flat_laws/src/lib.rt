//! Laws of the definitions in `flat_model` on what operations leave open: a refusal changes nothing, and the indexes
//! of new names are the only choice. All laws are of definitions alone: the functions here have no parameters and no
//! body.
#![tactic(auto)]

ghost use Rattle.std.specs.Prelude.{◌≡◌, ◌≤◌, ◌+◌, ◌*◌, ◌||◌, ℕ, List, [], take, true};
ghost use Rattle.flat_model.specs.Records.{InodeRecord, at_creation};
ghost use Rattle.flat_model.specs.Names.{FlatName};
ghost use Rattle.flat_model.specs.Volume.{Volume, RunVolume, mounted};
ghost use Rattle.flat_model.specs.Coherent.{IsCoherentVolume};
ghost use Rattle.flat_model.specs.Step.{AreNextIndexes, IsChoice, IsHistory, IsInLimits, IsSpelled, Operated, after_all, indexes_of, numbers_in, place_of, step, volume_at};
ghost use Rattle.flat_model.specs.Refusal.{is_done, is_refusal};
ghost use Rattle.flat_model.specs.Needs.{blocks_and_items, least_need, need, removed_by};
ghost use Rattle.flat_model.specs.Running.{IsSoundVolume};
ghost use Rattle.flat_model.specs.declared.op.Op.{Op};
ghost use Rattle.flat_laws.specs.Alike.{AreUnspent, HaveSameOperations, VolumesDifferInIndexes, answers_of};
ghost use Rattle.flat_laws.specs.Advance.{AreAtCreation, GoesFrom, HasAdvanced, HasInode, HasName};

/// Law: an operation that is refused leaves the volume in its run as it was, and makes no name (own).
pub fn refusals_change_nothing()
    ensures { (run : RunVolume) (op : Op) (indexes : List ℕ) → is_refusal (step run op indexes).answer ≡ true → ((step run op indexes).next ≡ run) × ((step run op indexes).made ≡ []) }
{}

/// Law: on a sound volume, an operation in its limits answers the same, whichever indexes its new names get (own).
pub fn answers_have_no_choice()
    ensures { (run : RunVolume) (op : Op) (one two : List ℕ) → IsSoundVolume run → IsSpelled op → IsInLimits op → (step run op one).answer ≡ (step run op two).answer }
{}

/// Law: where the names that an operation made have indexes that may be theirs, these indexes are a choice, and with
/// them the operation comes to the same (own).
pub fn choices_are_shown()
    ensures { (run : RunVolume) (op : Op) (indexes : List ℕ) → IsSoundVolume run → IsSpelled op → IsInLimits op → AreNextIndexes (numbers_in run (place_of op).sub.0) (step run op indexes).made → IsChoice run op (indexes_of (step run op indexes).made) × (step run op (indexes_of (step run op indexes).made) ≡ step run op indexes) }
{}

/// Law: on a sound volume, every operation in its limits has a choice of indexes left (own).
pub fn a_choice_is_left()
    ensures { (run : RunVolume) (op : Op) → IsSoundVolume run → IsSpelled op → IsInLimits op → (indexes : List ℕ) × IsChoice run op indexes }
{}

/// Law: each operation lets the numbers beside a subvolume only rise; the number of a new inode and the index of a new
/// name are above all that there were; and an inode that stays keeps its kind, and a symlink its target (own).
pub fn operations_advance()
    ensures { (run : RunVolume) (op : Op) (indexes : List ℕ) → IsSoundVolume run → IsSpelled op → IsInLimits op → IsChoice run op indexes → HasAdvanced run (step run op indexes).next }
{}

/// Law: an inode that an operation makes is a file of size 0, a directory, or a symlink with its target, each without
/// attributes (own).
pub fn new_inodes_are_as_made()
    ensures { (run : RunVolume) (op : Op) (indexes : List ℕ) → AreAtCreation run (step run op indexes).next }
{}

/// Law: an operation is done or refused; it answers nothing else (own).
pub fn operations_are_done_or_refused()
    ensures { (run : RunVolume) (op : Op) (indexes : List ℕ) → (is_done (step run op indexes).answer || is_refusal (step run op indexes).answer) ≡ true }
{}

/// Law: the data blocks, inline extents and attribute items of an inode that goes with an operation are what the operation
/// removes, and its need counts them (own).
pub fn needs_count_what_goes()
    ensures { (run : RunVolume) (op : Op) (indexes : List ℕ) → IsSoundVolume run → IsSpelled op → IsInLimits op → (id ino : ℕ) (inode : InodeRecord) → GoesFrom run (step run op indexes).next id ino inode
        → (removed_by run op ≡ blocks_and_items inode) × (need run op ≡ least_need op + 2 * blocks_and_items inode) }
{}

/// Law: from one point of a history to a later one the volume goes on as with one operation (own).
pub fn histories_advance()
    ensures { (volume : Volume) (history : List Operated) → IsCoherentVolume volume → IsHistory (mounted volume) history
        → (early late : ℕ) → early ≤ late → HasAdvanced (after_all (mounted volume) (take early history)) (after_all (mounted volume) (take late history)) }
{}

/// Law: at two points of a history one index of a directory has one name (own).
pub fn an_index_has_one_name()
    ensures { (volume : Volume) (history : List Operated) → IsCoherentVolume volume → IsHistory (mounted volume) history
        → (p q id : ℕ) (one two : FlatName) → HasName (volume_at volume history p) id one → HasName (volume_at volume history q) id two → one.dir ≡ two.dir → one.index ≡ two.index → one ≡ two }
{}

/// Law: at two points of a history an inode number has one kind, and a symlink one target (own).
pub fn an_inode_has_one_kind()
    ensures { (volume : Volume) (history : List Operated) → IsCoherentVolume volume → IsHistory (mounted volume) history
        → (p q id ino : ℕ) (one two : InodeRecord) → HasInode (volume_at volume history p) id ino one → HasInode (volume_at volume history q) id ino two → at_creation one ≡ at_creation two }
{}

/// Law: an inode number that went never comes back (own).
pub fn an_inode_never_comes_back()
    ensures { (volume : Volume) (history : List Operated) → IsCoherentVolume volume → IsHistory (mounted volume) history
        → (p q r id ino : ℕ) (one two : InodeRecord) → p ≤ q → q ≤ r → HasInode (volume_at volume history p) id ino one
        → ((gone : InodeRecord) → HasInode (volume_at volume history q) id ino gone → ⊥) → HasInode (volume_at volume history r) id ino two → ⊥ }
{}

/// Law: two histories of the same operations on one volume, in which no index reaches 2^62, answer the same, and leave
/// the same inodes with the same records, and the same names but for their indexes (own).
pub fn choices_change_indexes_alone()
    ensures { (volume : Volume) (one two : List Operated) → IsCoherentVolume volume → IsHistory (mounted volume) one → IsHistory (mounted volume) two → HaveSameOperations one two
        → AreUnspent (after_all (mounted volume) one) → AreUnspent (after_all (mounted volume) two)
        → VolumesDifferInIndexes (after_all (mounted volume) one) (after_all (mounted volume) two) × (answers_of (mounted volume) one ≡ answers_of (mounted volume) two) }
{}
