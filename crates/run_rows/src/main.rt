//! Runs the cases of its input, each over a disk in memory with a new volume of 4096 blocks, and prints what `run` and then
//! `list` print. Where a case names volumes by their listings, its script is also stopped before each device call, and eight
//! images that a crash may leave then are listed: it prints which of the volumes these are.
//!
//! A case begins with `=== NAME SUBVOLUMES`. Its parts begin with `--- script`; `--- fails N`, for a device call of the
//! whole case that fails, counted from 1; and `--- volume LETTER`, with the volume's listing.
#![tactic(auto)]

mod case;
mod commands;
mod crashes;

use case::Case;
use commands::{list, made, run_script};
use crashes::show_crashes;
use std::alloc::Global;
use std::io;

/// Prints the text of a command.
fn print(rt: &HostRuntime, text: &[u8]) -> io::Result<()> {
    let text = String::from_utf8_lossy(rt.alloc(), text)?;
    print!(rt; "{text}")
}

/// Runs a case, and prints what it gives.
fn show(rt: &HostRuntime, case: &Case) -> anyhow::Result<()> {
    let alloc: Global = rt.alloc();
    println!(rt; "=== {}", case.name)?;
    let mut disk = made(alloc, case.subvolumes, &case.fails)?;
    let text = run_script(alloc, case.script, &mut disk)?;
    print(rt, text.bytes())?;
    println!(rt; "--- list")?;
    let listed = list(alloc, &mut disk)?;
    print(rt, listed.bytes())?;
    if !case.volumes.is_empty() {
        println!(rt; "--- crashes")?;
        show_crashes(rt, case, text.bytes())?;
    }
    Ok(())
}

fn main(rt: HostRuntime) -> anyhow::Result<()> {
    let text = io::read_to_string(rt.alloc(), rt.stdin())?;
    for case in text.as_str().split("=== ").skip(1) {
        show(&rt, &Case::read(rt.alloc(), case)?)?;
    }
    Ok(())
}
