ghost use Rattle.std.specs.Prelude.{◌≡◌, ◌+◌, ◌*◌, ℕ, [], ◌∷◌};
ghost use Rattle.commit_history.specs.declared.event.Event.TheVariants as event;
ghost use Rattle.commit_room.specs.Items.{count_pairs, most_tree_blocks};
ghost use Rattle.commit_room.specs.Ledger.{Ledger, charge_of, ledger_after};
ghost use Rattle.commit_room.specs.Room.{free_blocks, sum_of};

/// Worked values: pairs that come twice count once; a tree of four items has at most nine blocks; with 100 addresses in use
/// a volume of 4096 blocks has 3914 free, and one of 4096 with 4050 none; the numbers from 3 on, four of them, make 18 (own).
pub fn worked_counts()
    ensures pairs { count_pairs ((1, 2) ∷ (1, 3) ∷ (1, 2) ∷ (2, 1) ∷ []) ≡ 3 }
    ensures tree { most_tree_blocks 4 ≡ 9 }
    ensures free { free_blocks 4096 100 ≡ 3914 }
    ensures none { free_blocks 4096 4050 ≡ 0 }
    ensures sum { sum_of (λ n. n) 3 4 ≡ 18 }
{}

/// Worked values: the seals of a root commit and of a full commit may take 33 blocks each; from a full commit's seal on they
/// are counted anew, and that counts once the commit is done (own).
pub fn worked_charges()
    ensures root { (ledger : Ledger) (caller : ℕ) → charge_of ledger (event.SealRoot caller) ≡ 33 }
    ensures full { (ledger : Ledger) (caller : ℕ) → charge_of ledger (event.SealFull caller) ≡ 33 }
    ensures sealed { (ledger : Ledger) (caller : ℕ)
        → (ledger_after (ledger_after (ledger_after ledger (event.SealFull caller)) (event.Ask caller)) (event.FullDone caller)).charged ≡ 33 }
{}
