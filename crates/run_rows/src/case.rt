//! A case of the input.
use blk_base::OutOfMemory;
use std::alloc::Global;

/// A volume that a crash may leave: its letter and its listing.
#[derive(Clone, Copy)]
pub struct Volume<'a> {
    pub letter: &'a str,
    pub listing: &'a str,
}

/// A script with its volume: how many subvolumes it has, which device calls fail, and the volumes that a crash may leave.
#[derive(Drop)]
pub struct Case<'a> {
    pub name: &'a str,
    pub subvolumes: &'a str,
    pub script: &'a str,
    pub fails: Vec<u64>,
    pub volumes: Vec<Volume<'a>>,
}

/// The first line of a text, and what stands behind it.
fn first_line(text: &str) -> (&str, &str) {
    text.split_once('\n').unwrap_or((text, ""))
}

impl<'a> Case<'a> {
    /// The case that the text behind its mark says.
    pub fn read(alloc: Global, text: &'a str) -> Result<Case<'a>, OutOfMemory> {
        let (head, rest) = first_line(text);
        let (name, subvolumes) = head.split_once(' ').unwrap_or((head, "1"));
        let mut case = Case {
            name,
            subvolumes,
            script: "",
            fails: Vec::new(alloc),
            volumes: Vec::new(alloc),
        };
        for part in rest.split("--- ").skip(1) {
            case.take(part)?;
        }
        Ok(case)
    }

    /// Takes one part of the text.
    fn take(&mut self, part: &'a str) -> Result<(), OutOfMemory> {
        let (title, body) = first_line(part);
        match title.split_once(' ') {
            Some(("fails", number)) => self.fails.push(number.parse().unwrap_or(0))?,
            Some(("volume", letter)) => self.volumes.push(Volume {
                letter,
                listing: body,
            })?,
            _ => self.script = body,
        }
        Ok(())
    }
}
