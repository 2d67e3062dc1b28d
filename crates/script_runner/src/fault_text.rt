//! The lines of faults of a mount.
ghost use Rattle.std.specs.Prelude.{◌≡◌, ◌++◌, OnOk, OnErr, codes};
ghost use Rattle.std.specs.Fmt.{decimal};
ghost use Rattle.io_edge.specs.Edge.{Takes, TakesFront, HasCause};
ghost use Rattle.script_runner.specs.Faults.{super_word, block_word, load_words, item_word, fault_line};
ghost use Rattle.tree_mount.specs.declared.fault.MountFault.TheVariants as mount_fault;

use blk_base::{Addr, BlockFault, ItemFault, Key, SuperFault};
use io_edge::{Sink, SinkFailed, put_all};
use itoa::Buffer;
use tree_mount::MountFault;
use volume_image::LoadFault;

/// The word of the check that a superblock fails.
fn super_word(fault: SuperFault) -> &'static str
    ensures { result.now ≡ super_word fault }
{
    match fault {
        SuperFault::Magic => "magic",
        SuperFault::Checksum => "checksum",
        SuperFault::Foreign => "foreign",
        SuperFault::Size => "size",
        SuperFault::Root => "root",
        SuperFault::Level => "level",
        SuperFault::LogLevel => "loglevel",
    }
}

/// The word of the check that a tree block fails.
fn block_word(fault: BlockFault) -> &'static str
    ensures { result.now ≡ block_word fault }
{
    match fault {
        BlockFault::Checksum => "checksum",
        BlockFault::Fsid => "fsid",
        BlockFault::Address => "address",
        BlockFault::Generation => "generation",
        BlockFault::Owner => "owner",
        BlockFault::Level => "level",
        BlockFault::Count => "count",
        BlockFault::Order => "order",
        BlockFault::Bounds => "bounds",
        BlockFault::Overlap => "overlap",
    }
}

/// Writes words, an address in decimal, words behind it, and the line's end.
fn put_line<K: Sink>(
    to: &mut K,
    before: &str,
    address: &str,
    behind: &str,
    word: &str,
) -> Result<(), SinkFailed>
    ensures whole { OnOk result (Takes (K.taken to.old) (before.now ++ address.now ++ behind.now ++ word.now ++ codes "\n") (K.taken to.new)) }
    ensures front { OnErr result (TakesFront (K.taken to.old) (before.now ++ address.now ++ behind.now ++ word.now ++ codes "\n") (K.taken to.new)) }
    ensures cause { HasCause (K.faults to.old) (K.faults to.new) result }
{
    put_all(to, &[before, address, behind, word, "\n"])
}

/// Writes the line of a fault at an address: words before the address, which is in decimal, and behind it.
fn put_at<K: Sink>(
    to: &mut K,
    before: &str,
    at: Addr,
    behind: &str,
    word: &str,
) -> Result<(), SinkFailed>
    ensures whole { OnOk result (Takes (K.taken to.old) (before.now ++ decimal at.0 ++ behind.now ++ word.now ++ codes "\n") (K.taken to.new)) }
    ensures front { OnErr result (TakesFront (K.taken to.old) (before.now ++ decimal at.0 ++ behind.now ++ word.now ++ codes "\n") (K.taken to.new)) }
    ensures cause { HasCause (K.faults to.old) (K.faults to.new) result }
{
    let mut buffer = Buffer::new();
    put_line(to, before, buffer.format(at.0), behind, word)
}

/// Writes the line of a walk's fault.
fn put_load_fault<K: Sink>(to: &mut K, fault: LoadFault) -> Result<(), SinkFailed>
    ensures whole { OnOk result (Takes (K.taken to.old) (codes "volume " ++ load_words fault ++ codes "\n") (K.taken to.new)) }
    ensures front { OnErr result (TakesFront (K.taken to.old) (codes "volume " ++ load_words fault ++ codes "\n") (K.taken to.new)) }
    ensures cause { HasCause (K.faults to.old) (K.faults to.new) result }
{
    match fault {
        LoadFault::Block(at, check) => put_at(to, "volume block ", at, " ", block_word(check)),
        LoadFault::Outside(at) => put_at(to, "volume outside ", at, "", ""),
        LoadFault::Twice(at) => put_at(to, "volume twice ", at, "", ""),
        LoadFault::Level(at) => put_at(to, "volume level ", at, "", ""),
        LoadFault::Thin(at) => put_at(to, "volume thin ", at, "", ""),
        LoadFault::Disk => put_all(to, &["volume disk\n"]),
        LoadFault::OutOfMemory => put_all(to, &["volume memory\n"]),
    }
}

/// The word of the check that an item fails.
fn item_word(fault: ItemFault) -> &'static str
    ensures { result.now ≡ item_word fault }
{
    match fault {
        ItemFault::Size => "size",
        ItemFault::NameLen => "namelen",
        ItemFault::Cut => "cut",
        ItemFault::Kind => "kind",
        ItemFault::Twice => "twice",
        ItemFault::Compressed => "compressed",
        ItemFault::Encrypted => "encrypted",
        ItemFault::Preallocated => "preallocated",
        ItemFault::Align => "align",
        ItemFault::Overlap => "overlap",
    }
}

/// Writes the line of an item's fault: the leaf's byte address, the key, and the check.
fn put_item_fault<K: Sink>(
    to: &mut K,
    at: Addr,
    key: Key,
    fault: ItemFault,
) -> Result<(), SinkFailed>
    ensures whole { OnOk result (Takes (K.taken to.old) (fault_line (mount_fault.Item at key fault)) (K.taken to.new)) }
    ensures front { OnErr result (TakesFront (K.taken to.old) (fault_line (mount_fault.Item at key fault)) (K.taken to.new)) }
    ensures cause { HasCause (K.faults to.old) (K.faults to.new) result }
{
    let mut address = Buffer::new();
    let mut objectid = Buffer::new();
    let mut kind = Buffer::new();
    let mut offset = Buffer::new();
    put_all(
        to,
        &[
            "volume item ",
            address.format(at.0),
            " ",
            objectid.format(key.objectid),
            " ",
            kind.format(key.kind),
            " ",
            offset.format(key.offset),
            " ",
            item_word(fault),
            "\n",
        ],
    )
}

/// Writes a line of words and two numbers, each behind a space.
fn put_two<K: Sink>(to: &mut K, before: &str, one: u64, two: u64) -> Result<(), SinkFailed>
    ensures whole { OnOk result (Takes (K.taken to.old) (before.now ++ decimal one ++ codes " " ++ decimal two ++ codes "\n") (K.taken to.new)) }
    ensures front { OnErr result (TakesFront (K.taken to.old) (before.now ++ decimal one ++ codes " " ++ decimal two ++ codes "\n") (K.taken to.new)) }
    ensures cause { HasCause (K.faults to.old) (K.faults to.new) result }
{
    let mut first = Buffer::new();
    let mut second = Buffer::new();
    put_all(
        to,
        &[before, first.format(one), " ", second.format(two), "\n"],
    )
}

/// Writes the line of a mount's fault.
pub(crate) fn put_fault<K: Sink>(to: &mut K, fault: MountFault) -> Result<(), SinkFailed>
    ensures whole { OnOk result (Takes (K.taken to.old) (fault_line fault) (K.taken to.new)) }
    ensures front { OnErr result (TakesFront (K.taken to.old) (fault_line fault) (K.taken to.new)) }
    ensures cause { HasCause (K.faults to.old) (K.faults to.new) result }
{
    match fault {
        MountFault::Super(check) => put_all(to, &["volume super ", super_word(check), "\n"]),
        MountFault::Log => put_all(to, &["volume log\n"]),
        MountFault::Load(fault) => put_load_fault(to, fault),
        MountFault::Item(at, key, fault) => put_item_fault(to, at, key, fault),
        MountFault::Incoherent(sub, ino) => put_two(to, "volume incoherent ", sub.0, ino.0),
        MountFault::NoRoom { free, need } => put_two(to, "volume noroom ", free, need),
        MountFault::Disk => put_all(to, &["volume disk\n"]),
        MountFault::OutOfMemory => put_all(to, &["volume memory\n"]),
    }
}
