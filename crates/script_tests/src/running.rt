use crate::making::{self, FSID};
use commit_history::Event;
use disk_memory::{MemoryDisk, NeverFails};
use disk_model::Disk;
use io_edge::{MemorySink, MemorySource};
use script_runner::{Run, Status, drive};
use std::alloc::Global;
use std::test::Fail;

/// Makes a file, writes it and syncs.
const SYNCED: &[u8] = b"1 create /a\n1 write /a 0 hi\n1 sync\n";

/// The listing of an empty volume.
const EMPTY: &[u8] = b"sub 5\n256 dir 1 0 - /\ndone 1\n";

/// The listing of the volume that `SYNCED` leaves.
const WRITTEN: &[u8] = b"sub 5\n256 dir 1 2 - /\n257 file 1 2 f59dd9c2 /a\ndone 2\n";

/// Does one command, with a script as the source.
fn command<D: Disk>(
    alloc: Global,
    word: &str,
    script: &[u8],
    disk: &mut D,
    to: &mut MemorySink,
) -> Result<Status, Fail> {
    let mut words = Vec::new(alloc);
    words.push(String::from_str(alloc, word)?)?;
    let mut from = MemorySource::new(alloc, script, &[])?;
    let mut run = Run::new(alloc);
    Ok(drive(alloc, &words, &mut from, to, disk, &mut run))
}

/// The answer to a script, and its text.
fn run<D: Disk>(alloc: Global, script: &[u8], disk: &mut D) -> Result<(Status, MemorySink), Fail> {
    let mut to = MemorySink::new(alloc, &[])?;
    let status = command(alloc, "run", script, disk, &mut to)?;
    Ok((status, to))
}

/// The answer to a `list`, and its text.
fn list<D: Disk>(alloc: Global, disk: &mut D) -> Result<(Status, MemorySink), Fail> {
    let mut to = MemorySink::new(alloc, &[])?;
    let status = command(alloc, "list", b"", disk, &mut to)?;
    Ok((status, to))
}

/// A disk with an empty volume of 4096 blocks and so many subvolumes, whose device calls with these numbers fail, from 1.
fn made_of(alloc: Global, subs: &str, fails: &[u64]) -> Result<MemoryDisk, Fail> {
    let mut disk = MemoryDisk::new(alloc, 4096, 64, fails)?;
    let mut words = Vec::new(alloc);
    for word in ["mkfs", FSID, "4096", subs] {
        words.push(String::from_str(alloc, word)?)?;
    }
    let mut from = MemorySource::new(alloc, b"", &[])?;
    let mut to = MemorySink::new(alloc, &[])?;
    let mut run = Run::new(alloc);
    drive(alloc, &words, &mut from, &mut to, &mut disk, &mut run);
    Ok(disk)
}

/// The same with one subvolume: the volume was made by the first four device calls.
fn made_failing(alloc: Global, fails: &[u64]) -> Result<MemoryDisk, Fail> {
    made_of(alloc, "1", fails)
}

/// A disk with an empty volume of 4096 blocks, whose device calls from the one behind so many on fail.
fn made(alloc: Global, calls: u64) -> Result<MemoryDisk, Fail> {
    let mut disk = made_failing(alloc, &[])?;
    disk.stop_after(calls);
    Ok(disk)
}

/// More device calls than any of these scripts makes.
const ALL: u64 = 1000;

/// Twelve files, whose items don't fit one leaf.
const TWELVE: &[u8] = b"1 create /a
1 create /b
1 create /c
1 create /d
1 create /e
1 create /f
1 create /g
1 create /h
1 create /i
1 create /j
1 create /k
1 create /l
1 write /a 0 x
1 write /b 0 x
1 sync
";

/// The text of `TWELVE`.
const TWELVE_TEXT: &str = "1 ok 257
1 ok 258
1 ok 259
1 ok 260
1 ok 261
1 ok 262
1 ok 263
1 ok 264
1 ok 265
1 ok 266
1 ok 267
1 ok 268
1 ok 1
1 ok 1
1 ok sync
done 15
";

/// The listing of the volume that `TWELVE` leaves; the first sum is that of the byte `x`.
const TWELVE_LEFT: &[u8] = b"sub 5
256 dir 1 24 - /
257 file 1 1 a93c5f93 /a
258 file 1 1 a93c5f93 /b
259 file 1 0 00000000 /c
260 file 1 0 00000000 /d
261 file 1 0 00000000 /e
262 file 1 0 00000000 /f
263 file 1 0 00000000 /g
264 file 1 0 00000000 /h
265 file 1 0 00000000 /i
266 file 1 0 00000000 /j
267 file 1 0 00000000 /k
268 file 1 0 00000000 /l
done 13
";

/// Other verbs.
const VERBS: &[u8] = b"1 create /a
1 write /a 0 hi
2 read /a 0 9
2 read /a 1 0
1 rename /a /b
1 lookup /b
1 fill /b 1 3 120
1 read /b 0 9
1 truncate /b 2
1 mkdir /d
1 setattr /b user.k v
1 getattr /b user.k
1 symlink /b t
1 link /b 256:/c
1 exchange / /b
1 rmdir /b
1 create /c
1 unlink /c
1 lookup /c
1 delattr /c user.k
1 sync
";

/// The text of `VERBS`.
const VERBS_TEXT: &str = "1 ok 257
1 ok 2
2 ok hi
2 ok
1 ok
1 ok 257
1 ok 3
1 ok hxxx
1 ok
1 ok 258
1 ok
1 ok v
1 exists
1 xdev
1 loop
1 notdir
1 ok 259
1 ok
1 noent
1 noent
1 ok sync
done 21
";

/// The listing of the volume that `VERBS` leaves; the sum is that of the bytes `hx`.
const VERBS_LEFT: &[u8] =
    b"sub 5\n256 dir 1 4 - /\n257 file 1 2 17a89dae /b\n attr user.k v\n258 dir 1 0 - /d\ndone 3\n";

/// Names that are refused, each for its reason.
const NAMES: &[u8] = b"1 mkdir /d
1 create /d/x
1 rmdir /d
1 unlink /d
1 create /d/x
1 create /e/x
1 create /d/x/y
1 rename /d /d/z
1 link /d/x 256:/x
1 delattr /d/x user.k
1 symlink /s d/x
1 write /s 0 q
1 unlink /d/x
1 rmdir /d
";

/// The text of `NAMES`.
const NAMES_TEXT: &str = "1 ok 257
1 ok 258
1 notempty
1 isdir
1 exists
1 noent
1 notdir
1 loop
1 xdev
1 noattr
1 ok 259
1 loop
1 ok
1 ok
done 14
";

/// A file up to the greatest size.
const LARGEST: &[u8] = b"1 create /a
1 fill /a 16711680 65536 7
1 write /a 16777216 x
1 truncate /a 16777217
";

/// The text of `LARGEST`.
const LARGEST_TEXT: &str = "1 ok 257\n1 ok 65536\n1 toolarge\n1 toolarge\ndone 4\n";

#[test]
fn a_script_has_its_text_and_its_volume(rt: HostRuntime) -> Result<(), Fail> {
    let rows = [
        (SYNCED, "1 ok 257\n1 ok 2\n1 ok sync\ndone 3\n", WRITTEN),
        (b"".as_slice(), "done 0\n", EMPTY),
        (VERBS, VERBS_TEXT, VERBS_LEFT),
        (NAMES, NAMES_TEXT, EMPTY),
        (TWELVE, TWELVE_TEXT, TWELVE_LEFT),
        (LARGEST, LARGEST_TEXT, EMPTY),
        (
            b"# a file\n\n16 create /a".as_slice(),
            "16 ok 257\ndone 1\n",
            EMPTY,
        ),
    ];
    for (script, text, listing) in rows {
        let mut disk = made(rt.alloc(), ALL)?;
        let (status, told) = run(rt.alloc(), script, &mut disk)?;
        assert_eq!(rt; status, Status::Done);
        assert_eq!(rt; told.bytes(), text.as_bytes());
        let (status, listed) = list(rt.alloc(), &mut disk)?;
        assert_eq!(rt; status, Status::Done);
        assert_eq!(rt; listed.bytes(), listing);
    }
    Ok(())
}

/// The listing of a volume of two subvolumes, each of one file.
const TWO_LEFT: &[u8] = b"sub 5
256 dir 1 2 - /
257 file 1 0 00000000 /a
sub 256
256 dir 1 2 - /
257 file 1 2 f59dd9c2 /b
done 4
";

#[test]
fn a_script_runs_on_two_subvolumes(rt: HostRuntime) -> Result<(), Fail> {
    let mut disk = made_of(rt.alloc(), "2", &[])?;
    let script = b"1 create /a\n2 create 256:/b\n1 write 256:/b 0 hi\n2 sync\n";
    let (_, told) = run(rt.alloc(), script, &mut disk)?;
    assert_eq!(rt;
        told.bytes(),
        b"1 ok 257\n2 ok 257\n1 ok 2\n2 ok sync\ndone 4\n".as_slice()
    );
    let (_, listed) = list(rt.alloc(), &mut disk)?;
    assert_eq!(rt; listed.bytes(), TWO_LEFT);
    Ok(())
}

/// Lists images that a crash may leave of a disk: how many are as before the script, how many as after it, and how many
/// are neither.
fn crashes(alloc: Global, disk: &MemoryDisk) -> Result<(u32, u32, u32), Fail> {
    let mut found = (0u32, 0u32, 0u32);
    for pick in 0..8 {
        let mut image = disk.crash(alloc, pick)?;
        let (_, text) = list(alloc, &mut image)?;
        if text.bytes() == EMPTY {
            found.0 = found.0.saturating_add(1);
        } else if text.bytes() == WRITTEN {
            found.1 = found.1.saturating_add(1);
        } else {
            found.2 = found.2.saturating_add(1);
        }
    }
    Ok(found)
}

/// The exit status of `SYNCED` on a disk that stops behind so many device calls, whether its text is this one, and the
/// images that a crash leaves.
fn stopped(alloc: Global, calls: u64, text: &str) -> Result<(u8, bool, (u32, u32, u32)), Fail> {
    let mut disk = made(alloc, calls)?;
    let (status, told) = run(alloc, SYNCED, &mut disk)?;
    let found = crashes(alloc, &disk)?;
    Ok((status.code(), told.bytes() == text.as_bytes(), found))
}

/// The text of `SYNCED` on a disk that fails in the sync.
const FAILED: &str = "1 ok 257\n1 ok 2\n1 io\ndone 3\n";

#[test]
fn a_crash_leaves_the_old_volume_or_the_new(rt: HostRuntime) -> Result<(), Fail> {
    // Three reads of the mount, three writes, the flush and the superblock.
    let rows = [
        (0, 4, "disk\n", (8, 0, 0)),
        (1, 4, "disk\n", (8, 0, 0)),
        (2, 4, "disk\n", (8, 0, 0)),
        (3, 0, FAILED, (8, 0, 0)),
        (4, 0, FAILED, (8, 0, 0)),
        (5, 0, FAILED, (8, 0, 0)),
        (6, 0, FAILED, (8, 0, 0)),
        (8, 0, "1 ok 257\n1 ok 2\n1 ok sync\ndone 3\n", (0, 8, 0)),
    ];
    for (calls, code, text, found) in rows {
        assert_eq!(rt; stopped(rt.alloc(), calls, text)?, (code, true, found));
    }
    // Where the write of the superblock fails, one of both.
    let (code, is_text, (old, new, other)) = stopped(rt.alloc(), 7, FAILED)?;
    assert_eq!(rt; (code, is_text, other), (0, true, 0));
    assert!(rt; old > 0 && new > 0);
    Ok(())
}

#[test]
fn a_sync_makes_good_one_that_failed(rt: HostRuntime) -> Result<(), Fail> {
    // Four calls made the volume; three reads, three writes, the flush and the superblock follow.
    for fails in [8, 10, 11, 12] {
        let mut disk = made_failing(rt.alloc(), &[fails])?;
        let script = b"1 create /a\n1 write /a 0 hi\n1 sync\n1 sync\n";
        let (_, text) = run(rt.alloc(), script, &mut disk)?;
        assert_eq!(rt;
            text.bytes(),
            b"1 ok 257\n1 ok 2\n1 io\n1 ok sync\ndone 4\n".as_slice()
        );
        assert_eq!(rt; crashes(rt.alloc(), &disk)?, (0, 8, 0));
    }
    Ok(())
}

/// What a faulty script comes to on a disk all of whose calls fail: its exit status, and whether the text is this one.
fn is_refused(alloc: Global, script: &[u8], text: &[u8]) -> Result<bool, Fail> {
    let mut disk = made(alloc, 0)?;
    let (status, told) = run(alloc, script, &mut disk)?;
    Ok(status.code() == 2 && told.bytes() == text)
}

#[test]
fn a_faulty_script_leaves_the_disk(rt: HostRuntime) -> Result<(), Fail> {
    for (script, text) in [
        ("1 create /a\n1 frob /a\n", "script 2 word\n"),
        ("17 sync\n", "script 1 caller\n"),
        ("1  sync\n", "script 1 word\n"),
        ("1 start sync\n", "script 1 word\n"),
        ("1 create /\\x2\n", "script 1 escape\n"),
        ("\n1 create a\n", "script 2 path\n"),
        ("1 write /a 18446744073709551616 x\n", "script 1 number\n"),
    ] {
        assert!(rt; is_refused(rt.alloc(), script.as_bytes(), text.as_bytes())?);
    }
    assert!(rt; is_refused(rt.alloc(), b"1 create /\xff\n", b"script 1 utf8\n")?);
    Ok(())
}

/// The exit status of a run of `SYNCED`, and its text, where these reads of the source and these writes to the sink fail.
fn at_the_edge(
    alloc: Global,
    reads: &[u64],
    writes: &[u64],
    calls: u64,
) -> Result<(u8, MemorySink), Fail> {
    let mut words = Vec::new(alloc);
    words.push(String::from_str(alloc, "run")?)?;
    let mut disk = made(alloc, calls)?;
    let mut from = MemorySource::new(alloc, SYNCED, reads)?;
    let mut to = MemorySink::new(alloc, writes)?;
    let mut run = Run::new(alloc);
    let status = drive(alloc, &words, &mut from, &mut to, &mut disk, &mut run);
    Ok((status.code(), to))
}

#[test]
fn each_edge_has_its_fault(rt: HostRuntime) -> Result<(), Fail> {
    let (status, text) = at_the_edge(rt.alloc(), &[2], &[], 0)?;
    assert_eq!(rt; status, 5);
    assert_eq!(rt; text.bytes(), b"read\n".as_slice());
    let (status, _) = at_the_edge(rt.alloc(), &[], &[], 0)?;
    assert_eq!(rt; status, 4);
    let (status, text) = at_the_edge(rt.alloc(), &[], &[1], ALL)?;
    assert_eq!(rt; status, 6);
    assert_eq!(rt; text.bytes(), b"".as_slice());
    Ok(())
}

/// The events of a run of `SYNCED`, each as a letter.
fn history(alloc: Global) -> Result<Vec<u8>, Fail> {
    let mut words = Vec::new(alloc);
    words.push(String::from_str(alloc, "run")?)?;
    let mut disk = made(alloc, ALL)?;
    let mut from = MemorySource::new(alloc, SYNCED, &[])?;
    let mut to = MemorySink::new(alloc, &[])?;
    let mut run = Run::new(alloc);
    drive(alloc, &words, &mut from, &mut to, &mut disk, &mut run);
    let mut letters = Vec::new(alloc);
    for place in 0..run.len() {
        letters.push(match run.event(place) {
            Event::Op { again: false, .. } => b'o',
            Event::Ask { caller: 1 } => b'a',
            Event::SealFull { caller: 1 } => b's',
            Event::FullDone { caller: 1 } => b'd',
            _ => b'-',
        })?;
    }
    Ok(letters)
}

#[test]
fn a_run_leaves_its_history(rt: HostRuntime) -> Result<(), Fail> {
    let letters = history(rt.alloc())?;
    assert_eq!(rt; letters.as_slice(), b"ooasd".as_slice());
    Ok(())
}

/// The text of a run that makes a file, fills it so many times with 65,536 bytes behind its end, and goes on so.
fn filled(alloc: Global, fills: u64, rest: &str) -> Result<MemorySink, Fail> {
    let mut script = String::from_str(alloc, "1 create /a\n")?;
    for fill in 0..fills {
        let line = format!(in alloc; "1 fill /a {} 65536 7\n", fill.saturating_mul(65536))?;
        script.push_str(line.as_str())?;
    }
    script.push_str(rest)?;
    let mut disk = NeverFails::new(alloc, 4096)?;
    let mut text = MemorySink::new(alloc, &[])?;
    making::run(alloc, &["mkfs", FSID, "4096", "1"], &mut disk, &mut text)?;
    let (_, text) = run(alloc, script.as_bytes(), &mut disk)?;
    Ok(text)
}

#[test]
fn a_full_volume_refuses_and_then_goes_on(rt: HostRuntime) -> Result<(), Fail> {
    let text = filled(rt.alloc(), 95, "")?;
    let lines = str::from_utf8(text.bytes()).unwrap_or("");
    let full = lines
        .split('\n')
        .filter(|line| *line == "1 ok 65536")
        .count() as u64;
    let less = full.saturating_sub(1).saturating_mul(65536);
    let least = full.saturating_sub(2).saturating_mul(65536);
    let rest = format!(in rt.alloc();
        "1 truncate /a {less}\n1 truncate /a {least}\n1 fill /a {least} 65536 7\n"
    )?;
    let text = filled(rt.alloc(), full.saturating_add(1), rest.as_str())?;
    let lines = str::from_utf8(text.bytes()).unwrap_or("");
    let mut ends = lines.rsplit('\n').skip(2);
    assert_eq!(rt; ends.next(), Some("1 ok 65536"));
    assert_eq!(rt; ends.next(), Some("1 ok"));
    assert_eq!(rt; ends.next(), Some("1 ok"));
    let mut words = ends.next().unwrap_or("").split(' ').skip(1);
    assert_eq!(rt; words.next(), Some("nospace"));
    let free: u64 = words.next().unwrap_or("").parse().unwrap_or(u64::MAX);
    assert!(rt; free < 2560);
    assert_eq!(rt; words.next(), Some("2560"));
    Ok(())
}

/// The text of a run of `SYNCED` and another sync, and the listing behind it, where this device call fails, from 1.
fn failing_at(alloc: Global, call: u64) -> Result<(MemorySink, MemorySink), Fail> {
    let mut disk = made_failing(alloc, &[call])?;
    let script = b"1 create /a\n1 write /a 0 hi\n1 sync\n1 sync\n";
    let (_, text) = run(alloc, script, &mut disk)?;
    let (_, listing) = list(alloc, &mut disk)?;
    Ok((text, listing))
}

#[test]
fn each_device_call_fails_once(rt: HostRuntime) -> Result<(), Fail> {
    // A mount reads the superblock, the root tree's leaf and the subvolume's. The first sync writes three blocks, flushes and
    // writes the superblock; the second one writes a root leaf anew.
    for (first, last, text, listing) in [
        (5, 7, "disk\n", EMPTY),
        (
            8,
            12,
            "1 ok 257\n1 ok 2\n1 io\n1 ok sync\ndone 4\n",
            WRITTEN,
        ),
        (
            13,
            15,
            "1 ok 257\n1 ok 2\n1 ok sync\n1 io\ndone 4\n",
            WRITTEN,
        ),
    ] {
        for call in first..=last {
            let (said, listed) = failing_at(rt.alloc(), call)?;
            assert_eq!(rt; said.bytes(), text.as_bytes());
            assert_eq!(rt; listed.bytes(), listing);
        }
    }
    Ok(())
}
