//! A reader of operations as text, one a line: `OPERATION WORDS = ANSWER`.
//!
//! A place is a path as `/d/x`, in subvolume 5, or behind the number of another, as `256:/d/x`. A name or a text is a word
//! of parts joined by `+`: each is its own bytes, or `*COUNT:BYTE`, one byte so many times.
use blk_base::{Name, OutOfMemory, SubId, Text, is_name};
use flat_model::{Answer, Op, Path, Place};
use std::alloc::{AllocFailed, Global};

/// Why words are no row.
#[derive(Debug, Drop, thiserror::Error)]
pub enum RowFault {
    /// They have not the form of one.
    #[error("no row")]
    Form,
    /// Out of memory.
    #[error("out of memory")]
    OutOfMemory,
}

impl From<OutOfMemory> for RowFault {
    fn from(_e: OutOfMemory) -> RowFault {
        RowFault::OutOfMemory
    }
}

impl<T: Drop> From<AllocFailed<T>> for RowFault {
    fn from(_e: AllocFailed<T>) -> RowFault {
        RowFault::OutOfMemory
    }
}

/// The number that a word spells.
fn number(word: &str) -> Result<u64, RowFault> {
    match word.parse::<u64>() {
        Ok(number) => Ok(number),
        Err(_) => Err(RowFault::Form),
    }
}

/// Adds one byte so many times, as `COUNT:BYTE` has it.
fn add_run(bytes: &mut Vec<u8>, run: &str) -> Result<(), RowFault> {
    let Some((count, byte)) = run.split_once(':') else {
        return Err(RowFault::Form);
    };
    let Ok(byte) = byte.parse::<u8>() else {
        return Err(RowFault::Form);
    };
    for _ in 0..number(count)? {
        bytes.push(byte)?;
    }
    Ok(())
}

/// The bytes that a word stands for.
fn bytes_of(alloc: Global, word: &str) -> Result<Vec<u8>, RowFault> {
    let mut bytes = Vec::new(alloc);
    for part in word.split('+') {
        match part.strip_prefix('*') {
            Some(run) => add_run(&mut bytes, run)?,
            None => {
                for byte in part.as_bytes() {
                    bytes.push(*byte)?;
                }
            }
        }
    }
    Ok(bytes)
}

/// The text that a word stands for.
fn text_of(alloc: Global, word: &str) -> Result<Text, RowFault> {
    let bytes = bytes_of(alloc, word)?;
    Ok(Text::new(alloc, bytes.as_slice())?)
}

/// The name that a word stands for.
pub fn name_of(alloc: Global, word: &str) -> Result<Name, RowFault> {
    let bytes = bytes_of(alloc, word)?;
    if !is_name(bytes.as_slice()) {
        return Err(RowFault::Form);
    }
    Ok(Name::new(alloc, bytes.as_slice())?)
}

/// The path of these names, each behind a `/`; `/` alone is the root directory.
pub fn path_of(alloc: Global, words: &str) -> Result<Path, RowFault> {
    let mut names = Vec::new(alloc);
    for word in words.split('/') {
        if !word.is_empty() {
            names.push(name_of(alloc, word)?)?;
        }
    }
    if names.len() > 64 {
        return Err(RowFault::Form);
    }
    Ok(Path::new(names))
}

/// The place that a word stands for.
fn place_of(alloc: Global, word: &str) -> Result<Place, RowFault> {
    match word.split_once(":/") {
        Some((sub, path)) => Ok(Place {
            sub: SubId(number(sub)?),
            path: path_of(alloc, path)?,
        }),
        None => Ok(Place {
            sub: SubId(5),
            path: path_of(alloc, word)?,
        }),
    }
}

/// The operation of these words: its name, and at most three words more.
pub fn operation(alloc: Global, line: &str) -> Result<Op, RowFault> {
    let mut words: [&str; 4] = ["", "", "", ""];
    let mut count = 0;
    for word in line.split(' ') {
        if count >= 4 {
            return Err(RowFault::Form);
        }
        words[count] = word;
        count += 1;
    }
    let [name, first, second, third] = words;
    let place = place_of(alloc, first)?;
    match name.as_bytes() {
        b"create" => Ok(Op::Create(place)),
        b"mkdir" => Ok(Op::Mkdir(place)),
        b"symlink" => Ok(Op::Symlink(place, text_of(alloc, second)?)),
        b"unlink" => Ok(Op::Unlink(place)),
        b"rmdir" => Ok(Op::Rmdir(place)),
        b"lookup" => Ok(Op::Lookup(place)),
        b"link" => Ok(Op::Link(place, place_of(alloc, second)?)),
        b"rename" => Ok(Op::Rename(place, place_of(alloc, second)?)),
        b"exchange" => Ok(Op::Exchange(place, place_of(alloc, second)?)),
        _ => content_operation(alloc, name, place, second, third),
    }
}

/// An operation on contents or attributes.
fn content_operation(
    alloc: Global,
    name: &str,
    place: Place,
    second: &str,
    third: &str,
) -> Result<Op, RowFault> {
    match name.as_bytes() {
        b"write" => Ok(Op::Write(place, number(second)?, text_of(alloc, third)?)),
        b"truncate" => Ok(Op::Truncate(place, number(second)?)),
        b"read" => Ok(Op::Read(place, number(second)?, number(third)?)),
        b"setattr" => Ok(Op::SetAttr(place, name_of(alloc, second)?, text_of(alloc, third)?)),
        b"delattr" => Ok(Op::DelAttr(place, name_of(alloc, second)?)),
        b"getattr" => Ok(Op::GetAttr(place, name_of(alloc, second)?)),
        _ => Err(RowFault::Form),
    }
}

/// The word of an answer that has neither a number nor bytes.
fn word_of(answer: &Answer) -> &'static str {
    match answer {
        Answer::Plain => "ok",
        Answer::Xdev => "xdev",
        Answer::NoEnt => "noent",
        Answer::NotDir => "notdir",
        Answer::IsDir => "isdir",
        Answer::Exists => "exists",
        Answer::NotEmpty => "notempty",
        Answer::Loop => "loop",
        Answer::Links => "links",
        Answer::TooLarge => "toolarge",
        Answer::NoAttr => "noattr",
        Answer::Collide => "collide",
        _ => "another",
    }
}

/// Whether an answer is the one of these words: `ok NUMBER`, `ok BYTES`, or one word.
pub fn is_said(alloc: Global, answer: &Answer, words: &str) -> Result<bool, RowFault> {
    match (answer, words.strip_prefix("ok ")) {
        (Answer::Number(given), Some(word)) => Ok(*given == number(word)?),
        (Answer::Bytes(given), Some(word)) => Ok(*given == text_of(alloc, word)?),
        (Answer::Number(_), None) | (Answer::Bytes(_), None) => Ok(false),
        (other, _) => Ok(word_of(other) == words),
    }
}
