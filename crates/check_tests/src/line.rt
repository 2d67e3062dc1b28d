//! Lines of words: numbers, keys and bytes.
use anyhow::{Result, bail};
use blk_base::{Addr, Key, Want};
use std::alloc::{AllocError, Global};

/// The uuid of the volumes of all cases.
const FSID: [u8; 16] = [7; 16];

/// The number that a word is, or `turn` for `#`.
fn number_of(word: &str, turn: u64) -> Result<u64> {
    if word == "#" {
        return Ok(turn);
    }
    match word.parse::<u64>() {
        Ok(number) => Ok(number),
        Err(_) => bail!("no number: {word}"),
    }
}

/// Adds the bytes of a word: `COUNT:NUMBER`, the number in so many bytes, the low ones first, or `=TEXT`.
fn add_bytes(bytes: &mut Vec<u8>, word: &str, turn: u64) -> Result<()> {
    if let Some(text) = word.strip_prefix('=') {
        bytes.extend_from_slice(text.as_bytes())?;
        return Ok(());
    }
    let Some((count, number)) = word.split_once(':') else {
        bail!("no bytes: {word}");
    };
    let mut rest = number_of(number, turn)?;
    for _ in 0..number_of(count, turn)? {
        bytes.push((rest % 256) as u8).map_err(AllocError::from)?;
        rest /= 256;
    }
    Ok(())
}

/// The words of a line, and the number that `#` is.
#[derive(Drop)]
pub struct Line<'a> {
    words: Vec<&'a str>,
    turn: u64,
}

impl<'a> Line<'a> {
    /// The words of a text, with one space between two.
    pub fn read(alloc: Global, text: &'a str, turn: u64) -> Result<Line<'a>> {
        let mut words = Vec::new(alloc);
        for word in text.split(' ') {
            words.push(word).map_err(AllocError::from)?;
        }
        Ok(Line { words, turn })
    }

    /// The word at a place, from 0; empty where there is none.
    pub fn word(&self, place: usize) -> &'a str {
        match self.words.get(place) {
            Some(word) => *word,
            None => "",
        }
    }

    /// The number that the word at a place is.
    pub fn number(&self, place: usize) -> Result<u64> {
        number_of(self.word(place), self.turn)
    }

    /// The number of a block that the word at a place is.
    pub fn block(&self, place: usize) -> Result<u32> {
        match u32::try_from(self.number(place)?) {
            Ok(number) => Ok(number),
            Err(_) => bail!("no block"),
        }
    }

    /// The place in a block that the word at a place is.
    pub fn offset(&self, place: usize) -> Result<usize> {
        let number = self.number(place)?;
        if number >= 4096 {
            bail!("no place in a block: {number}");
        }
        Ok(number as usize)
    }

    /// The number of one byte that the word at a place is.
    fn byte(&self, place: usize) -> Result<u8> {
        match u8::try_from(self.number(place)?) {
            Ok(number) => Ok(number),
            Err(_) => bail!("no byte"),
        }
    }

    /// The key that the first three words behind the verb are: object id, type and offset.
    pub fn key(&self) -> Result<Key> {
        Ok(Key {
            objectid: self.number(1)?,
            kind: self.byte(2)?,
            offset: self.number(3)?,
        })
    }

    /// What a tree block is read with, by the first four words behind the verb: block, generation, owner and level.
    pub fn want(&self) -> Result<Want> {
        Ok(Want {
            fsid: FSID,
            at: Addr(u64::from(self.block(1)?) * 4096),
            generation: self.number(2)?,
            owner: self.number(3)?,
            level: self.byte(4)?,
        })
    }

    /// The bytes of the words from a place on.
    pub fn bytes(&self, alloc: Global, place: usize) -> Result<Vec<u8>> {
        let mut bytes = Vec::new(alloc);
        for word in self.words.iter().skip(place) {
            add_bytes(&mut bytes, word, self.turn)?;
        }
        Ok(bytes)
    }
}
