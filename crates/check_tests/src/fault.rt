//! Faults as they are printed.
use blk_base::{Addr, Ino};
use std::fmt;
use std::fmt::{Formatter, Write};
use tree_check::TreeFault;
use volume_image::LoadFault;

/// The first fault of a case.
#[derive(Clone, Copy)]
pub enum Fault {
    /// A tree can't be loaded.
    Load(LoadFault),
    /// A check of the tree of this owner, once it is loaded.
    Tree(u64, TreeFault),
}

fn write_load_fault<W: Write>(f: &mut Formatter<W>, fault: &LoadFault) -> fmt::Result {
    match *fault {
        LoadFault::Block(Addr(at), check) => write!(f, "block {at} {check}"),
        LoadFault::Outside(Addr(at)) => write!(f, "outside {at}"),
        LoadFault::Twice(Addr(at)) => write!(f, "twice {at}"),
        LoadFault::Level(Addr(at)) => write!(f, "level {at}"),
        LoadFault::Thin(Addr(at)) => write!(f, "thin {at}"),
        LoadFault::Disk => write!(f, "disk"),
        LoadFault::OutOfMemory => write!(f, "memory"),
    }
}

fn write_tree_fault<W: Write>(f: &mut Formatter<W>, owner: u64, fault: &TreeFault) -> fmt::Result {
    match *fault {
        TreeFault::Item(Addr(at), key, check) => {
            let (ino, kind, offset) = (key.objectid, key.kind, key.offset);
            write!(f, "item {at} {ino} {kind} {offset} {check}")
        }
        TreeFault::Outside(Addr(at)) => write!(f, "outside {at}"),
        TreeFault::Twice(Addr(at)) => write!(f, "twice {at}"),
        TreeFault::Incoherent(Ino(ino)) => write!(f, "incoherent {owner} {ino}"),
        TreeFault::Disk => write!(f, "disk"),
        TreeFault::OutOfMemory => write!(f, "memory"),
    }
}

impl fmt::Display for Fault {
    fn fmt<W: Write>(&self, f: &mut Formatter<W>) -> fmt::Result {
        match self {
            Fault::Load(fault) => write_load_fault(f, fault),
            Fault::Tree(owner, fault) => write_tree_fault(f, *owner, fault),
        }
    }
}
