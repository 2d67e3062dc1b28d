ghost use Rattle.std.specs.Prelude.{Ok, None, Some, [], ◌∷◌, ◌≡◌};
ghost use Rattle.flat_model.specs.Records.{new_dir, new_link};
ghost use Rattle.volume_image.specs.Subvolume.{Data};
ghost use Rattle.log_image.specs.LogRules.{LacksInode, MoreThanExists, NamesClash, OtherKind, PastLimits, RootNamed, StrayItem, WrongExtents, accepted_log, log_of};
ghost use Rattle.log_image.specs.Planted.{IsRefusedFor, LeaveInode, LeaveNames, crossed_log, crowded_log, doubled_log, endowed_log, had, hollow_log, large_log, looped_log, misplaced_log, name_a, name_d, near_in, orphan_log, repeated_log, sound_log, stray_log, turned_log};

/// Worked values, over a committed subvolume with the file `/a` and the directory `/d`: a log that is accepted, and for
/// each rule of accepted logs one or more that break it alone and are refused for it.
pub fn planted_logs_are_refused()
    // `/a` whole, as it was
    ensures sound { (blocks : Data) → accepted_log had sound_log blocks ≡ Ok (log_of sound_log blocks) }
    // an item of a type that no log has; an attribute under a hash that isn't its own
    ensures stray { IsRefusedFor stray_log 258 StrayItem }
    ensures misplaced { IsRefusedFor misplaced_log 257 StrayItem }
    // a name of an inode without an item
    ensures orphan { IsRefusedFor orphan_log 259 LacksInode }
    // `/a` as a directory
    ensures turned { IsRefusedFor turned_log 257 OtherKind }
    // a file of more than 16,777,216 bytes
    ensures large { IsRefusedFor large_log 257 PastLimits }
    // an inode that only exists, with an attribute
    ensures endowed { IsRefusedFor endowed_log 257 MoreThanExists }
    // a symlink without an extent
    ensures hollow { IsRefusedFor hollow_log 259 WrongExtents }
    // the root directory with a name
    ensures looped { IsRefusedFor looped_log 256 RootNamed }
    // two names at one index, a name twice, a name twice in one item, and 3990 bytes of entries of one hash
    ensures crossed { IsRefusedFor crossed_log 256 NamesClash }
    ensures doubled { IsRefusedFor doubled_log 256 NamesClash }
    ensures repeated { IsRefusedFor repeated_log 256 NamesClash }
    ensures crowded { IsRefusedFor crowded_log 256 NamesClash }
{}

/// Worked values: what replay of a log that is refused would leave: a name whose inode isn't there, a directory where
/// a file was, a symlink to nothing, the root directory below another one, two names at one index, and a name twice.
pub fn refused_logs_would_leave()
    ensures orphan { LeaveNames orphan_log (name_a ∷ name_d ∷ near_in 256 4 98 259 ∷ []) }
    ensures no_inode { LeaveInode orphan_log 259 None }
    ensures turned { LeaveInode turned_log 257 (Some new_dir) }
    ensures hollow { LeaveInode hollow_log 259 (Some (new_link [])) }
    ensures looped { LeaveNames looped_log (name_a ∷ name_d ∷ near_in 258 4 114 256 ∷ []) }
    ensures crossed { LeaveNames crossed_log (name_a ∷ near_in 256 2 98 259 ∷ name_d ∷ []) }
    ensures doubled { LeaveNames doubled_log (name_a ∷ name_d ∷ near_in 256 4 97 259 ∷ []) }
{}
