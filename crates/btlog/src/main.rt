//! The program: a command on the image of a volume in a file.
//!
//! The file and the standard streams are its edge to the outside: they tell nothing of their content and count their
//! faults. What a command does is `script_runner`'s.
#![tactic(auto)]

mod file_disk;
mod standard;

use blk_base::format::BLOCK_SIZE;
use file_disk::FileDisk;
use foreign_read::{ForeignStatus, drive_foreign};
use script_runner::{Run, Status, blocks_asked, drive};
use standard::{ReaderSource, WriterSink};
use std::alloc::AllocError;
use std::fs::{File, OpenOptions};
use std::io::ErrorKind;
use std::process::ExitCode;
use std::{env, io};
use tree_mount::MountFault;

const VERSION: &str = "btlog 0.1.0";

const USAGE: &str =
    "usage: btlog IMAGE mkfs FSID BLOCKS SUBS | run | list | foreign; btlog --help has more";

const HELP: &str = "\
usage: btlog IMAGE COMMAND
       btlog --help | --version

IMAGE is a file with the image of a volume. Commands, and what they print:
  mkfs FSID BLOCKS SUBS   makes an empty volume       made BLOCKS SUBS
    FSID is a uuid, as 00000000-0000-0000-0000-000000000001
    BLOCKS is 4096 to 65536, in blocks of 4096 bytes; SUBS is 1 to 16
    an image that isn't there is made
  run                     runs a script on a volume   its answers, and done N
    the script is read from standard input
  list                    shows what a volume has     its listing
  foreign                 shows what a volume has     its listing
    the volume was made by the kernel or its tools, on one device with single or
    DUP chunks; the image is only read

Other answers, and the exit status of each:
  0  the command was done
  1  usage    the words are no command
  2  script   the script has a fault; its line and kind stand behind the word
  3  volume   the image has no volume that can be mounted; what is wrong stands behind the word
     foreign  the image has no volume of the kernel's that can be listed; the same
  4  disk     the image can't be opened or made, another program holds a lock on it, or it
              failed while a volume was made or mounted
  5  read     standard input failed, or has more than 16777216 bytes
  6           standard output failed
  7  memory   no memory
  8  range    FSID, BLOCKS or SUBS is out of its form or range, or the image is too small
A sentence on what went wrong stands on standard error.";

fn main(rt: HostRuntime) -> ExitCode {
    ExitCode::from(run(&rt))
}

/// Does what the program's words ask, and gives the exit status.
fn run(rt: &HostRuntime) -> u8 {
    match words(rt) {
        Ok(words) => match words.as_slice() {
            [] => usage(rt),
            [word] if word.as_str() == "--help" => answer(rt, HELP, Status::Done),
            [word] if word.as_str() == "--version" => answer(rt, VERSION, Status::Done),
            [image, command @ ..] if is_foreign(command) => {
                on_foreign(rt, image.as_str(), command)
            }
            [image, command @ ..] => on_image(rt, image.as_str(), command),
        },
        Err(e) if e.kind() == ErrorKind::OutOfMemory => answer(rt, "memory", Status::Memory),
        Err(_) => usage(rt),
    }
}

/// The program's words without its own name. An error is want of memory, or a word that isn't UTF-8.
fn words(rt: &HostRuntime) -> io::Result<Vec<String>> {
    let mut words = Vec::new(rt.alloc());
    for word in env::args(rt)?.skip(1) {
        words.push(word).map_err(AllocError::from)?;
    }
    Ok(words)
}

/// Prints a line, and gives the exit status.
fn answer(rt: &HostRuntime, text: &str, status: Status) -> u8 {
    match rt.println(text) {
        Err(_) if status == Status::Done => Status::WriteFault.code(),
        _ => status.code(),
    }
}

// A sentence on standard error that can't be written changes nothing: the answer stands on standard output.

/// Answers words that are no command.
fn usage(rt: &HostRuntime) -> u8 {
    let _ = rt.eprintln(USAGE);
    answer(rt, "usage", Status::Usage)
}

/// Runs a command on the image in a file.
fn on_image(rt: &HostRuntime, path: &str, command: &[String]) -> u8 {
    match open_disk(rt, path, command) {
        Ok(mut disk) => {
            let mut from = ReaderSource::new(rt.stdin());
            let mut to = WriterSink::new(rt.stdout());
            let mut history = Run::new(rt.alloc());
            let status = drive(
                rt.alloc(),
                command,
                &mut from,
                &mut to,
                &mut disk,
                &mut history,
            );
            explain(rt, path, status);
            status.code()
        }
        Err(e) => not_opened(rt, path, &e),
    }
}

/// Says on standard error why a command found no volume, or what its words may be.
fn explain(rt: &HostRuntime, path: &str, status: Status) {
    let _ = match status {
        Status::Usage => rt.eprintln(USAGE),
        Status::NoVolume(fault) => eprintln!(rt; "btlog: {path}: {}", meaning(fault)),
        _ => Ok(()),
    };
}

/// What it means that a volume can't be mounted for this fault.
fn meaning(fault: MountFault) -> &'static str {
    match fault {
        MountFault::Super(_) =>
            "its superblock isn't that of a volume that mkfs made, or is damaged",
        MountFault::Log => "it has a log, which can't be replayed yet",
        MountFault::Load(_) => "a tree has a block that is damaged or isn't where one may be",
        MountFault::Item(..) => "an item of a tree is damaged",
        MountFault::Incoherent(..) => "the items of an inode don't agree with one another",
        MountFault::NoRoom { .. } => "it has too few free blocks to be mounted",
        MountFault::Disk => "it couldn't be read",
        MountFault::OutOfMemory => "there was no memory",
    }
}

/// Answers for an image that can't be opened, with the system's words on standard error.
fn not_opened(rt: &HostRuntime, path: &str, error: &io::Error) -> u8 {
    let _ = match error.kind() {
        ErrorKind::WouldBlock => eprintln!(rt; "btlog: {path}: another program holds a lock on it"),
        _ => eprintln!(rt; "btlog: {path}: {error}"),
    };
    answer(rt, "disk", Status::DiskFault)
}

/// Whether the first word is `foreign`.
fn is_foreign(command: &[String]) -> bool {
    match command {
        [word, ..] => word.as_str() == "foreign",
        [] => false,
    }
}

/// Lists the volume of the kernel's or its tools' making on the image in a file, which is only read.
fn on_foreign(rt: &HostRuntime, path: &str, command: &[String]) -> u8 {
    match open_read_only(rt, path) {
        Ok(mut disk) => {
            let mut to = WriterSink::new(rt.stdout());
            let status = drive_foreign(rt.alloc(), command, &mut to, &mut disk);
            end_foreign(rt, status)
        }
        Err(e) => not_opened(rt, path, &e),
    }
}

/// Opens the image to be read alone.
fn open_read_only(rt: &HostRuntime, path: &str) -> io::Result<FileDisk> {
    let file = OpenOptions::new().read(true).open(rt, path)?;
    FileDisk::read_only(file)
}

/// Prints the word of an answer that has written nothing, and gives the exit status.
fn end_foreign(rt: &HostRuntime, status: ForeignStatus) -> u8 {
    match status {
        ForeignStatus::Usage => usage(rt),
        ForeignStatus::DiskFault => answer(rt, "disk", Status::DiskFault),
        ForeignStatus::Memory => answer(rt, "memory", Status::Memory),
        ForeignStatus::Done | ForeignStatus::NoVolume(_) | ForeignStatus::WriteFault => {
            status.code()
        }
    }
}

/// Opens the image. For a `mkfs` with a number of blocks that a volume may have, a file that isn't there is made.
fn open_disk(rt: &HostRuntime, path: &str, command: &[String]) -> io::Result<FileDisk> {
    match OpenOptions::new().read(true).write(true).open(rt, path) {
        Ok(file) => FileDisk::new(file),
        Err(e) if e.kind() == ErrorKind::NotFound => match blocks_asked(command) {
            Some(blocks) => {
                let file = File::create_new(rt, path)?;
                file.set_len(u64::from(blocks) * BLOCK_SIZE)?;
                file.sync_all()?;
                FileDisk::new(file)
            }
            None => Err(e),
        },
        Err(e) => Err(e),
    }
}
