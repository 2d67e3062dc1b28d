//! A script that is stopped before each of its device calls, and what images of a crash then list.
use crate::case::Case;
use crate::commands::{list, made, run_script};
use disk_memory::MemoryDisk;

/// How many images of a crash are listed at each stop.
const PICKS: u64 = 8;

/// More device calls than any case makes.
const MOST_CALLS: u64 = 2000;

/// The letters of the volumes that eight images of a crash list, in the case's order, and `?` where one lists none of them.
fn letters(rt: &HostRuntime, case: &Case, disk: &MemoryDisk) -> anyhow::Result<String> {
    let mut seen = vec![in rt.alloc(); false; case.volumes.len()]?;
    let mut strange = false;
    for pick in 0..PICKS {
        let mut crashed = disk.crash(rt.alloc(), pick)?;
        let text = list(rt.alloc(), &mut crashed)?;
        let found = case
            .volumes
            .iter()
            .position(|volume| volume.listing.as_bytes() == text.bytes());
        match found.and_then(|place| seen.get_mut(place)) {
            Some(seen) => *seen = true,
            None => strange = true,
        }
    }
    let mut letters = String::new(rt.alloc());
    for (volume, seen) in case.volumes.iter().zip(seen.iter()) {
        if *seen {
            letters.push_str(volume.letter)?;
        }
    }
    if strange {
        letters.push_str("?")?;
    }
    Ok(letters)
}

/// Stops the script before each device call, until it gives this text without a stop, and prints the letters of the volumes
/// that images of a crash list then: a line for each row of stops that leave the same ones.
pub fn show_crashes(rt: &HostRuntime, case: &Case, whole: &[u8]) -> anyhow::Result<()> {
    let mut before = String::new(rt.alloc());
    for calls in 0..MOST_CALLS {
        let mut disk = made(rt.alloc(), case.subvolumes, &[])?;
        disk.stop_after(calls);
        let text = run_script(rt.alloc(), case.script, &mut disk)?;
        let now = letters(rt, case, &disk)?;
        if now.as_str() != before.as_str() {
            println!(rt; "{now}")?;
        }
        before = now;
        if text.bytes() == whole {
            return Ok(());
        }
    }
    println!(rt; "more calls than {MOST_CALLS}")?;
    Ok(())
}
