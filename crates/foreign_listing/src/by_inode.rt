//! Rows in the order of the inodes to which they belong, so that those of one inode are found by halves.
ghost use Rattle.std.specs.Prelude.{◌≡◌, ◌==◌, ℕ, OnOk, vec_len};
ghost use Rattle.std.specs.List.{filter};
ghost use Rattle.std.specs.List.Sorted.{IsNonDecreasingBy};

use blk_base::OutOfMemory;
use foreign_items::{ExtentRow, InodeRow, NameRow};

/// A row of an item that belongs to an inode; an entry belongs to its directory.
pub(crate) trait Row {
    /// The inode's number.
    ghost owner: { Self → ℕ };

    fn ino(&self) -> u64
        ensures { result ≡ owner self.now };
}

impl Row for InodeRow {
    ghost owner = { λ row. row.key.objectid };

    fn ino(&self) -> u64 {
        self.key.objectid
    }
}

impl Row for NameRow {
    ghost owner = { λ row. row.key.objectid };

    fn ino(&self) -> u64 {
        self.key.objectid
    }
}

impl Row for ExtentRow {
    ghost owner = { λ row. row.key.objectid };

    fn ino(&self) -> u64 {
        self.key.objectid
    }
}

/// Puts rows in ascending order of their inodes. Those of one inode keep their order. Takes n log n steps for n rows.
pub(crate) fn sort_by_inode<R: Row>(rows: &mut Vec<R>) -> Result<(), OutOfMemory>
    ensures sorted { OnOk result (IsNonDecreasingBy R.owner rows.new.items) }
    ensures same { OnOk result ((ino : ℕ) → filter (λ row. R.owner row == ino) rows.new.items ≡ filter (λ row. R.owner row == ino) rows.old.items) }
    ensures len { vec_len rows.new ≡ vec_len rows.old }
{
    rows.sort_by_key(|row| row.ino())?;
    Ok(())
}

/// The rows of an inode among rows in this order. Takes log n steps for n rows.
pub(crate) fn of_inode<R: Row>(rows: &[R], ino: u64) -> &[R]
    requires { IsNonDecreasingBy R.owner rows.now }
    ensures { result.now ≡ filter (λ row. R.owner row == ino) rows.now }
{
    let from = rows.partition_point(|row| row.ino() < ino);
    let behind = &rows[from..];
    let count = behind.partition_point(|row| row.ino() <= ino);
    &behind[..count]
}
