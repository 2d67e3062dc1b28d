ghost use Rattle.std.specs.Prelude.{◌≡◌, true, false, [], ◌∷◌, None, Some};
ghost use Rattle.std.specs.FinMap.{get};
ghost use Rattle.flat_model.specs.declared.answer.Reason.TheVariants.{Conflicts, GoneDir};
ghost use Rattle.logged_volume.specs.Drawn.{drawn_set};
ghost use Rattle.logged_volume.specs.FlatLog.{empty_log};
ghost use Rattle.logged_volume.specs.LogStep.{log_step};
ghost use Rattle.logged_volume.specs.Replay.{replay};
ghost use Rattle.logged_volume.specs.Rules.{commit_reason};
ghost use Rattle.log_rows.specs.Written.{written_log};
ghost use Rattle.log_rows.specs.Rows.{again, again_names, ample, bare, changed, changed_names, crossed, crossed_names, cut, cut_names, deep, emptied, emptied_log, emptied_names, file_of, filled, grown, grown_log, grown_whole, left, made_entry, moved, moved_names, nested, pair, range, remade, remade_names, removed_log, renamed, renamed_names, replaced, resized, row, shifted, shifted_names, three, turned, turned_names};

/// Worked values: `/a` was renamed to `/b` and another file made as `/a`; two files exchanged their names by way of a
/// third name. An fsync of the one that is now `/a` draws the other too, and logs its new name.
pub fn renamed_files()
    ensures renamed_drawn { drawn_set remade renamed 258 ≡ 257 ∷ 258 ∷ [] }
    ensures renamed_reason { commit_reason remade renamed 258 false ample ≡ None }
    ensures renamed_after { (log_step remade renamed 258 false).names ≡ remade_names }
    ensures renamed_kept { get (log_step remade renamed 258 false).inodes 257 ≡ Some (file_of 2) }
    ensures crossed_drawn { drawn_set crossed pair 258 ≡ 257 ∷ 258 ∷ [] }
    ensures crossed_reason { commit_reason crossed pair 258 false ample ≡ None }
    ensures crossed_after { (log_step crossed pair 258 false).names ≡ crossed_names }
{}

/// Worked values: of two directories `/a` and `/a/b` the inner one was moved out, and the outer one into it: an fsync of
/// the one that is now inside draws both. And `/y/p` was moved to `/p`, then `/y` to `/p/q/y`: an fsync of `/p/q/y/f`
/// draws both directories that moved, though one between them didn't.
pub fn moved_directories()
    ensures turned_drawn { drawn_set turned nested 257 ≡ 257 ∷ 258 ∷ [] }
    ensures turned_reason { commit_reason turned nested 257 false ample ≡ None }
    ensures turned_after { (log_step turned nested 257 false).names ≡ turned_names }
    ensures moved_drawn { drawn_set moved deep 260 ≡ 257 ∷ 258 ∷ 260 ∷ [] }
    ensures moved_reason { commit_reason moved deep 260 false ample ≡ None }
    ensures moved_after { (log_step moved deep 260 false).names ≡ moved_names }
{}

/// Worked values: `/d/x` was unlinked. An fsync of `/d` draws the file that is gone, and the log has one range of all
/// indexes of `/d`; replay drops the name. Then `/d` was removed too: an fsync of `/` draws it as gone, and what its
/// range dropped is written again, as a range of the one index that `/d/x` had.
pub fn removed_names()
    ensures emptied_drawn { drawn_set emptied filled 257 ≡ 257 ∷ 258 ∷ [] }
    ensures emptied_reason { commit_reason emptied filled 257 false ample ≡ None }
    ensures emptied_after { (log_step emptied filled 257 false).names ≡ emptied_names }
    ensures emptied_ranges { (written_log filled emptied filled 257 false empty_log).ranges ≡ range 257 0 18_446_744_073_709_551_615 ∷ [] }
    ensures emptied_replayed { (replay filled emptied_log).names ≡ emptied_names }
    ensures removed_drawn { drawn_set bare emptied 256 ≡ 256 ∷ 257 ∷ [] }
    ensures removed_reason { commit_reason bare emptied 256 false ample ≡ None }
    ensures removed_after { (log_step bare emptied 256 false).names ≡ [] }
    ensures removed_ranges { (written_log filled bare emptied 256 false emptied_log).ranges ≡ range 256 0 18_446_744_073_709_551_615 ∷ range 257 3 3 ∷ [] }
    ensures removed_replayed { (replay filled removed_log).names ≡ [] }
{}

/// Worked values: of the names of a directory at the indexes 3, 4 and 5 the middle one was unlinked, and one made at 6. An
/// fsync of the directory draws the file that is gone and the one that came; the log has ranges of the changed indexes
/// alone, and the entry that stands in them.
pub fn changed_indexes()
    ensures changed_drawn { drawn_set changed three 257 ≡ 257 ∷ 259 ∷ 261 ∷ [] }
    ensures changed_after { (log_step changed three 257 false).names ≡ changed_names }
    ensures changed_ranges { (written_log three changed three 257 false empty_log).ranges ≡ range 257 4 4 ∷ range 257 6 18_446_744_073_709_551_615 ∷ [] }
    ensures changed_entries { (written_log three changed three 257 false empty_log).entries ≡ made_entry ∷ [] }
{}

/// Worked values: `/g/c` was moved to `/q/c`, the directory `/g` removed and a file made as `/g`. An fsync of the file
/// draws the directory that is gone, but not what it had: a full commit is made.
pub fn gone_directories()
    ensures replaced_drawn { drawn_set replaced left 260 ≡ 258 ∷ 260 ∷ [] }
    ensures replaced_reason { commit_reason replaced left 260 false ample ≡ Some (GoneDir (record { 0 = 258 })) }
{}

/// Worked values: files were renamed each to the next name, and another file made with the first name. An fsync of it
/// has as many conflicts as there are files: with eleven a full commit is made, with ten a log step.
pub fn rows_of_renames()
    ensures eleven_reason { commit_reason (shifted 11) (row 11) 268 false ample ≡ Some (Conflicts 11) }
    ensures ten_reason { commit_reason (shifted 10) (row 10) 267 false ample ≡ None }
    ensures ten_after { (log_step (shifted 10) (row 10) 267 false).names ≡ shifted_names 10 }
{}

/// Worked values: `/a` was unlinked, and another file made as `/a`. An fsync of it draws the one that is gone, which
/// leaves R, and the log has a range of the one index that it had.
pub fn files_made_again()
    ensures again_drawn { drawn_set again renamed 258 ≡ 257 ∷ 258 ∷ [] }
    ensures again_reason { commit_reason again renamed 258 false ample ≡ None }
    ensures again_after { (log_step again renamed 258 false).names ≡ again_names }
    ensures again_gone { get (log_step again renamed 258 false).inodes 257 ≡ None }
    ensures again_ranges { (written_log renamed again renamed 258 false empty_log).ranges ≡ range 256 2 2 ∷ [] }
{}

/// Worked values: `/a` of 4096 bytes was synced, then cut to 5 bytes and renamed to `/c`. An fsync of `/` brings the new
/// name alone: the file stays whole in the log, with the size that was synced.
pub fn whole_inodes()
    ensures cut_drawn { drawn_set cut grown 256 ≡ 256 ∷ 257 ∷ [] }
    ensures cut_reason { commit_reason cut grown 256 false ample ≡ None }
    ensures cut_after { (log_step cut grown 256 false).names ≡ cut_names }
    ensures cut_kept { get (log_step cut grown 256 false).inodes 257 ≡ Some (file_of 4096) }
    ensures cut_whole { get (written_log bare cut grown 256 false grown_log).whole 257 ≡ Some grown_whole }
{}

/// Worked values: `/a` was renamed to `/b` and grew to 9 bytes. An fdatasync brings the record and no name.
pub fn data_alone()
    ensures data_names { (log_step resized renamed 257 true).names ≡ renamed_names }
    ensures data_record { get (log_step resized renamed 257 true).inodes 257 ≡ Some (file_of 9) }
{}
