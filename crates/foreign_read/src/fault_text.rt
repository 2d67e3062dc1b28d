//! The lines of faults of a foreign volume.
ghost use Rattle.std.specs.Prelude.{◌≡◌, ◌++◌, OnOk, OnErr, codes};
ghost use Rattle.std.specs.Fmt.{decimal};
ghost use Rattle.io_edge.specs.Edge.{Takes, TakesFront, HasCause};
ghost use Rattle.foreign_read.specs.Faults.{block_word, fault_line, item_word, item_words};

use blk_base::{BlockFault, Ino, ItemFault, Key, SubId};
use foreign_format::ForeignFault;
use io_edge::{Sink, SinkFailed, put_all};
use itoa::Buffer;

/// The word of the check that a tree block fails.
fn block_word(fault: BlockFault) -> &'static str
    ensures { result.now ≡ block_word fault }
{
    match fault {
        BlockFault::Checksum => "checksum",
        BlockFault::Fsid => "fsid",
        BlockFault::Address => "address",
        BlockFault::Generation => "generation",
        BlockFault::Owner => "owner",
        BlockFault::Level => "level",
        BlockFault::Count => "count",
        BlockFault::Order => "order",
        BlockFault::Bounds => "bounds",
        BlockFault::Overlap => "overlap",
    }
}

/// The word of the check that an item fails.
fn item_word(fault: ItemFault) -> &'static str
    ensures { result.now ≡ item_word fault }
{
    match fault {
        ItemFault::Size => "size",
        ItemFault::NameLen => "namelen",
        ItemFault::Cut => "cut",
        ItemFault::Kind => "kind",
        ItemFault::Twice => "twice",
        ItemFault::Compressed => "compressed",
        ItemFault::Encrypted => "encrypted",
        ItemFault::Preallocated => "preallocated",
        ItemFault::Align => "align",
        ItemFault::Overlap => "overlap",
    }
}

/// Writes words and a number in decimal, and the line's end.
fn put_number<K: Sink>(to: &mut K, before: &str, number: u64) -> Result<(), SinkFailed>
    ensures whole { OnOk result (Takes (K.taken to.old) (before.now ++ decimal number ++ codes "\n") (K.taken to.new)) }
    ensures front { OnErr result (TakesFront (K.taken to.old) (before.now ++ decimal number ++ codes "\n") (K.taken to.new)) }
    ensures cause { HasCause (K.faults to.old) (K.faults to.new) result }
{
    let mut buffer = Buffer::new();
    put_all(to, &[before, buffer.format(number), "\n"])
}

/// Writes the line of a tree block that fails a check.
fn put_block<K: Sink>(to: &mut K, at: u64, fault: BlockFault) -> Result<(), SinkFailed>
    ensures whole { OnOk result (Takes (K.taken to.old)
        (codes "foreign block " ++ decimal at ++ codes " " ++ block_word fault ++ codes "\n") (K.taken to.new)) }
    ensures front { OnErr result (TakesFront (K.taken to.old)
        (codes "foreign block " ++ decimal at ++ codes " " ++ block_word fault ++ codes "\n") (K.taken to.new)) }
    ensures cause { HasCause (K.faults to.old) (K.faults to.new) result }
{
    let mut buffer = Buffer::new();
    let address = buffer.format(at);
    put_all(
        to,
        &["foreign block ", address, " ", block_word(fault), "\n"],
    )
}

/// Writes the line of an item that fails a check.
fn put_item<K: Sink>(to: &mut K, at: u64, key: Key, fault: ItemFault) -> Result<(), SinkFailed>
    ensures whole { OnOk result (Takes (K.taken to.old) (codes "foreign item " ++ item_words at key fault ++ codes "\n") (K.taken to.new)) }
    ensures front { OnErr result (TakesFront (K.taken to.old) (codes "foreign item " ++ item_words at key fault ++ codes "\n") (K.taken to.new)) }
    ensures cause { HasCause (K.faults to.old) (K.faults to.new) result }
{
    let (mut first, mut second) = (Buffer::new(), Buffer::new());
    let (mut third, mut fourth) = (Buffer::new(), Buffer::new());
    let address = first.format(at);
    let objectid = second.format(key.objectid);
    let kind = third.format(key.kind);
    let offset = fourth.format(key.offset);
    let word = item_word(fault);
    put_all(
        to,
        &[
            "foreign item ",
            address,
            " ",
            objectid,
            " ",
            kind,
            " ",
            offset,
            " ",
            word,
            "\n",
        ],
    )
}

/// Writes the line of an inode that can't be listed.
fn put_incoherent<K: Sink>(to: &mut K, sub: SubId, ino: Ino) -> Result<(), SinkFailed>
    ensures whole { OnOk result (Takes (K.taken to.old)
        (codes "foreign incoherent " ++ decimal sub.0 ++ codes " " ++ decimal ino.0 ++ codes "\n") (K.taken to.new)) }
    ensures front { OnErr result (TakesFront (K.taken to.old)
        (codes "foreign incoherent " ++ decimal sub.0 ++ codes " " ++ decimal ino.0 ++ codes "\n") (K.taken to.new)) }
    ensures cause { HasCause (K.faults to.old) (K.faults to.new) result }
{
    let (mut first, mut second) = (Buffer::new(), Buffer::new());
    let subvolume = first.format(sub.0);
    let inode = second.format(ino.0);
    put_all(to, &["foreign incoherent ", subvolume, " ", inode, "\n"])
}

/// Writes the line of a fault.
pub(crate) fn put_fault<K: Sink>(to: &mut K, fault: ForeignFault) -> Result<(), SinkFailed>
    ensures whole { OnOk result (Takes (K.taken to.old) (fault_line fault) (K.taken to.new)) }
    ensures front { OnErr result (TakesFront (K.taken to.old) (fault_line fault) (K.taken to.new)) }
    ensures cause { HasCause (K.faults to.old) (K.faults to.new) result }
{
    match fault {
        ForeignFault::Magic => put_all(to, &["foreign magic\n"]),
        ForeignFault::Kind(kind) => put_number(to, "foreign kind ", u64::from(kind)),
        ForeignFault::Checksum => put_all(to, &["foreign checksum\n"]),
        ForeignFault::Size => put_all(to, &["foreign size\n"]),
        ForeignFault::HasLog(at) => put_number(to, "foreign haslog ", at),
        ForeignFault::Devices(count) => put_number(to, "foreign devices ", count),
        ForeignFault::Array => put_all(to, &["foreign array\n"]),
        ForeignFault::Profile(at) => put_number(to, "foreign profile ", at),
        ForeignFault::Chunk(at) => put_number(to, "foreign chunk ", at),
        ForeignFault::Unmapped(at) => put_number(to, "foreign unmapped ", at),
        ForeignFault::Block(at, check) => put_block(to, at, check),
        ForeignFault::Level(at) => put_number(to, "foreign level ", at),
        ForeignFault::Twice(at) => put_number(to, "foreign twice ", at),
        ForeignFault::Item(at, key, check) => put_item(to, at, key, check),
        ForeignFault::Incoherent(sub, ino) => put_incoherent(to, sub, ino),
    }
}
