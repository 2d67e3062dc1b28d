//! Faults of changed images: cases are read from standard input, and for each a line says what the checks of its trees answer.
//!
//! The input is paragraphs of lines, with an empty line between two. One that begins with `case NAME` is a case; one that
//! begins with `volume` has the lines that each case behind it begins with; any other one is a comment. `case NAME FROM TO`
//! stands for a case with each of these numbers, which its lines have as `#`. `image` and `case` say what a line does.
#![tactic(auto)]

mod case;
mod checks;
mod fault;
mod image;
mod line;
mod tree_block;

use case::answer;
use line::Line;
use std::alloc::Global;
use std::io;

/// Prints what the checks answer in a case of this name, with this number behind it where there is one.
fn print_case(
    rt: &impl Print,
    alloc: Global,
    name: &str,
    base: &str,
    lines: &str,
    turn: Option<u64>,
) -> anyhow::Result<()> {
    let found = answer(alloc, base, lines, turn.unwrap_or(0))?;
    match turn {
        Some(turn) => print!(rt; "{name}-{turn} ")?,
        None => print!(rt; "{name} ")?,
    }
    match found {
        Some(fault) => println!(rt; "{fault}")?,
        None => println!(rt; "fine")?,
    }
    Ok(())
}

/// Prints what the checks answer in the cases of a paragraph, in which the word `case` was read.
fn print_cases(rt: &impl Print, alloc: Global, base: &str, paragraph: &str) -> anyhow::Result<()> {
    let (head, lines) = match paragraph.split_once('\n') {
        Some(parts) => parts,
        None => (paragraph, ""),
    };
    let head = Line::read(alloc, head, 0)?;
    let name = head.word(0);
    if head.word(1).is_empty() {
        return print_case(rt, alloc, name, base, lines, None);
    }
    for turn in head.number(1)?..=head.number(2)? {
        print_case(rt, alloc, name, base, lines, Some(turn))?;
    }
    Ok(())
}

fn main(rt: HostRuntime) -> anyhow::Result<()> {
    let text = io::read_to_string(rt.alloc(), rt.reader())?;
    let mut base = "";
    for paragraph in text.as_str().split("\n\n") {
        if paragraph.starts_with("volume") {
            base = paragraph;
        }
        if let Some(case) = paragraph.strip_prefix("case ") {
            print_cases(&rt, rt.alloc(), base, case)?;
        }
    }
    Ok(())
}
