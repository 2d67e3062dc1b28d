//! The rows that were worked out by hand.
use crate::trees::TreeVolume;
use flat_volume::is_in_limits;
use operation_rows::{is_said, operation, scripts};
use std::alloc::Global;
use std::io::Print;

/// Whether a row's operation answers as it says.
pub(crate) fn agrees(
    alloc: Global,
    volume: &mut TreeVolume,
    words: &str,
    want: &str,
) -> anyhow::Result<bool> {
    let op = operation(alloc, words)?;
    if !is_in_limits(&op) {
        return Ok(false);
    }
    match volume.apply(alloc, &op)? {
        Some(answer) => Ok(is_said(alloc, &answer, want)?),
        None => Ok(false),
    }
}

/// Carries out the rows on trees, and prints how many agree, and each that doesn't.
pub(crate) fn rows(rt: &impl Print, alloc: Global) -> anyhow::Result<()> {
    let mut count = 0u64;
    let mut volume = TreeVolume::empty(alloc)?;
    for script in scripts() {
        for line in script.lines() {
            match line.split_once(" = ") {
                Some((words, want)) => {
                    if agrees(alloc, &mut volume, words, want)? {
                        count = count.wrapping_add(1);
                    } else {
                        println!(rt; "not {line}")?;
                    }
                }
                None => volume = TreeVolume::empty(alloc)?,
            }
        }
    }
    println!(rt; "rows {count}")?;
    Ok(())
}
