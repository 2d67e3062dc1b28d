ghost use Rattle.std.specs.Prelude.{true, false, ◌≡◌, ℕ, ◌^◌, List, [], ◌∷◌, Option, Some, None};
ghost use Rattle.flat_model.specs.declared.answer.Reason.TheVariants.{Space, FailedLog};
ghost use Rattle.logged_volume.specs.Agreement.{do_names_differ};
ghost use Rattle.logged_volume.specs.Drawn.{dirs_above};
ghost use Rattle.logged_volume.specs.Numbers.{gaps_with};
ghost use Rattle.logged_volume.specs.Rules.{RoomNumbers, room_reason};
ghost use Rattle.logged_volume.specs.Worked.{after_move, before_move};

/// Worked values: a file of three blocks that was cut to nothing and grown to three blocks again has one hole; of a
/// directory in which the name at index 3 is unchanged and those at 2 and 4 aren't, the indexes below 3 and those above
/// it are two intervals; where it is unchanged at 2 and 3 and lost the name at 4, those above 3 are one (own).
pub fn worked_intervals()
    ensures hole { gaps_with [] (0 ∷ 1 ∷ 2 ∷ []) 3 ≡ (0, 3) ∷ [] }
    ensures both_sides { gaps_with (3 ∷ []) (2 ∷ 3 ∷ 4 ∷ []) (2 ^ 64) ≡ (0, 3) ∷ (4, 2 ^ 64) ∷ [] }
    ensures above { gaps_with (2 ∷ 3 ∷ []) (2 ∷ 3 ∷ 4 ∷ []) (2 ^ 64) ≡ (4, 2 ^ 64) ∷ [] }
{}

/// Worked values: with 4 tree blocks and a weight of 9 a log step needs 1387 free blocks; with them the next rule is that
/// of failures (own).
pub fn worked_reasons()
    ensures short { room_reason (record { free = 1386; tree_blocks = 4; weight = 9; failed = 1 }) ≡ Some (Space 1386 1387) }
    ensures failed { room_reason (record { free = 1387; tree_blocks = 4; weight = 9; failed = 1 }) ≡ Some (FailedLog 1) }
    ensures none { room_reason (record { free = 1387; tree_blocks = 4; weight = 9; failed = 0 }) ≡ None }
{}

/// Worked values: `/y/p` is moved to `/p`, and then `/y` to `/p/q/y`. Above the file `/p/q/y/f` are 256 and all three
/// directories; of them the names of the two that were moved differ, and those of the one between and of the file don't (own).
pub fn worked_directories()
    ensures above { dirs_above after_move.names 260 ≡ 256 ∷ 257 ∷ 258 ∷ 259 ∷ [] }
    ensures upper { do_names_differ after_move before_move 258 ≡ true }
    ensures lower { do_names_differ after_move before_move 257 ≡ true }
    ensures between { do_names_differ after_move before_move 259 ≡ false }
    ensures file { do_names_differ after_move before_move 260 ≡ false }
{}
