//! A file that is filled on a new volume, cut and grown.
use crate::trees::TreeVolume;
use crate::worked::agrees;
use std::alloc::Global;
use std::io::Print;

/// Lines, and how many extents of how many bytes the file has behind each.
const LINES: [(&str, &str, u32, u64); 6] = [
    ("create /a", "ok 257", 0, 0),
    ("write /a 0 *65536:7", "ok 65536", 1, 65_536),
    ("read /a 65530 9", "ok *6:7", 1, 65_536),
    ("truncate /a 5", "ok", 1, 4096),
    ("truncate /a 100", "ok", 1, 4096),
    ("read /a 0 200", "ok *5:7+*95:0", 1, 4096),
];

/// Carries out these lines, and prints how many agree, and each that doesn't.
pub(crate) fn one_run(rt: &impl Print, alloc: Global) -> anyhow::Result<()> {
    let mut volume = TreeVolume::empty(alloc)?;
    let mut count = 0u64;
    for (words, want, extents, bytes) in LINES {
        if agrees(alloc, &mut volume, words, want)? && volume.first_file() == (extents, bytes) {
            count = count.wrapping_add(1);
        } else {
            println!(rt; "not {words}")?;
        }
    }
    println!(rt; "filled {count}")?;
    Ok(())
}
