//! Whether the items that names ask for fit into leaves.
ghost use Rattle.std.specs.Prelude.{◌≡◌, ◌↔◌, Bool, IsTrue, sum_by, nat_le};
ghost use Rattle.flat_sub.specs.Lists.{share_of};
ghost use Rattle.flat_sub.specs.View.{name_view, sub_view, IsWellKept};
ghost use Rattle.flat_check.specs.Parts.{HasItemsThatFit};

use blk_base::{extref_hash, format, name_hash};
use flat_model::NameAt;
use flat_sub::{FlatSub, Item};

/// The most bytes of one item in a leaf ("Header" of the on-disk format).
const MOST_ITEM_BYTES: u64 = format::MOST_ITEM_BYTES as u64;

/// Whether the entries of an item take at most as many bytes as a leaf holds.
fn fits(sub: &FlatSub, item: Item) -> bool
    requires { IsWellKept sub.now }
    ensures { result ≡ nat_le (sum_by (share_of item) (sub_view sub.now).sub.names) MOST_ITEM_BYTES }
{
    let mut sum: u64 = 0;
    for (index, name) in sub.names.iter().enumerate() {
        sum = sum.saturating_add(item.share(name, sub.near[index]));
    }
    sum <= MOST_ITEM_BYTES
}

/// Whether each item fits into a leaf that may have an entry of a name: the INODE_REF of its inode and directory, the
/// INODE_EXTREF of its inode and hash, and the DIR_ITEM of its directory and hash ("Leaf nodes" of the on-disk format).
pub(crate) fn has_items_that_fit(sub: &FlatSub, name: &NameAt) -> bool
    requires { IsWellKept sub.now }
    ensures { (near : Bool) → (IsTrue result ↔ HasItemsThatFit (sub_view sub.now).sub.names (name_view name.now near)) }
{
    let (dir, ino, bytes) = (name.dir.0, name.ino.0, name.name.as_bytes());
    let extref = Item::Extref {
        ino,
        hash: extref_hash(name.dir, bytes),
    };
    let entry = Item::Entry {
        dir,
        hash: name_hash(bytes),
    };
    fits(sub, Item::Ref { ino, dir }) && fits(sub, extref) && fits(sub, entry)
}
