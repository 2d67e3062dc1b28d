//! Drawn operations on trees and on the plain volume.
use crate::trees::TreeVolume;
use flat_model::Answer;
use flat_volume::{FlatVolume, is_in_limits};
use operation_rows::operation;
use rand_core::{Rng, SeedableRng};
use rand_pcg::Lcg64Xsh32;
use std::alloc::Global;
use std::io::Print;

/// The places that are likely to be files, and those that are likely to be directories.
const FILES: [&str; 8] = [
    "/a", "/b", "/d/a", "/d/b", "/d/d/a", "/e/a", "256:/a", "256:/d/b",
];

const DIRECTORIES: [&str; 8] = ["/d", "/e", "/d/d", "/d", "/e/d", "256:/d", "256:/d/d", "/"];

/// The directories that are made first.
const FIRST: [&str; 5] = [
    "mkdir /d",
    "mkdir /e",
    "mkdir /d/d",
    "mkdir 256:/d",
    "create /d/a",
];

/// One of the places.
fn place(rng: &mut Lcg64Xsh32, places: &[&'static str; 8]) -> &'static str {
    places[rng.next_u32() as usize % 8]
}

/// A place that is likely to be a file.
fn file(rng: &mut Lcg64Xsh32) -> &'static str {
    if rng.next_u32() % 16 == 0 {
        return place(rng, &DIRECTORIES);
    }
    place(rng, &FILES)
}

/// A place that is likely to be a directory.
fn directory(rng: &mut Lcg64Xsh32) -> &'static str {
    if rng.next_u32() % 16 == 0 {
        return place(rng, &FILES);
    }
    place(rng, &DIRECTORIES)
}

/// The words of a drawn operation on names.
fn name_words(alloc: Global, rng: &mut Lcg64Xsh32) -> anyhow::Result<String> {
    let (first, second) = (file(rng), file(rng));
    let (one, two) = (directory(rng), directory(rng));
    Ok(match rng.next_u32() % 14 {
        0 | 1 | 2 | 3 | 4 => format!(in alloc; "create {first}")?,
        5 => format!(in alloc; "mkdir {one}")?,
        6 => format!(in alloc; "symlink {first} {second}")?,
        7 => format!(in alloc; "link {first} {second}")?,
        8 => format!(in alloc; "unlink {first}")?,
        9 => format!(in alloc; "rmdir {one}")?,
        10 => format!(in alloc; "rename {first} {second}")?,
        11 => format!(in alloc; "rename {one} {two}")?,
        12 => format!(in alloc; "exchange {first} {one}")?,
        _ => format!(in alloc; "lookup {first}")?,
    })
}

/// The words of a drawn operation on contents and attributes.
fn content_words(alloc: Global, rng: &mut Lcg64Xsh32) -> anyhow::Result<String> {
    let first = file(rng);
    let number = rng.next_u32() % 20_000;
    let byte = rng.next_u32() % 256;
    let count = rng.next_u32() % 9000 + 1;
    let key = number % 3;
    Ok(match rng.next_u32() % 10 {
        0 | 1 | 2 => format!(in alloc; "write {first} {number} *{count}:{byte}")?,
        3 | 4 => format!(in alloc; "truncate {first} {number}")?,
        5 => format!(in alloc; "read {first} {number} {count}")?,
        6 | 7 => format!(in alloc; "setattr {first} user.{key} v{byte}")?,
        8 => format!(in alloc; "delattr {first} user.{key}")?,
        _ => format!(in alloc; "getattr {first} user.{key}")?,
    })
}

/// The words of a drawn operation.
fn words(alloc: Global, rng: &mut Lcg64Xsh32) -> anyhow::Result<String> {
    if rng.next_u32() % 2 == 0 {
        return name_words(alloc, rng);
    }
    content_words(alloc, rng)
}

/// The words of an answer.
fn told(alloc: Global, answer: &Answer) -> anyhow::Result<String> {
    Ok(format!(in alloc; "{answer:?}")?)
}

/// Whether an operation answers alike on trees and on the plain volume.
fn agrees(
    alloc: Global,
    trees: &mut TreeVolume,
    plain: &mut FlatVolume,
    words: &str,
) -> anyhow::Result<bool> {
    let op = operation(alloc, words)?;
    if !is_in_limits(&op) {
        return Ok(false);
    }
    let want = plain.apply(alloc, &op)?;
    match trees.apply(alloc, &op)? {
        Some(answer) => Ok(told(alloc, &answer)?.as_str() == told(alloc, &want)?.as_str()),
        None => Ok(false),
    }
}

/// Carries out five operations and 300 drawn ones on both, and prints how many agree, each that doesn't, and whether all blocks are accounted
/// for at the end.
pub(crate) fn beside_the_plain_volume(rt: &impl Print, alloc: Global) -> anyhow::Result<()> {
    let mut rng = Lcg64Xsh32::seed_from_u64(2026);
    let mut trees = TreeVolume::empty(alloc)?;
    let mut plain = FlatVolume::empty(alloc, 2)?;
    let mut count = 0u64;
    for line in FIRST {
        if agrees(alloc, &mut trees, &mut plain, line)? {
            count = count.wrapping_add(1);
        }
    }
    for _ in 0..300 {
        let line = words(alloc, &mut rng)?;
        if agrees(alloc, &mut trees, &mut plain, line.as_str())? {
            count = count.wrapping_add(1);
        } else {
            println!(rt; "not {line}")?;
        }
    }
    println!(rt; "drawn {count}")?;
    let lost = trees.taken().wrapping_sub(trees.counted());
    println!(rt; "lost blocks {lost}")?;
    Ok(())
}
