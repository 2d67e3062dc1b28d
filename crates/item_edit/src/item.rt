ghost use Rattle.std.specs.Prelude.{◌≡◌, ◌≤◌, ◌<◌, ◌+◌, ◌-◌, ◌++◌, length, take, drop, None, Some, IsSome};
ghost use Rattle.block_table.specs.Table.{free_blocks};
ghost use Rattle.tree_range.specs.Between.{data_under};
ghost use Rattle.tree_range.specs.Shape.{IsTree, tree_items, tree_reach};
ghost use Rattle.tree_frame.specs.Frame.{AreCurrent};
ghost use Rattle.item_edit.specs.ItemEdit.{IsItemEdit, bytes_under, item_bytes};

use blk_base::format::MOST_ITEM_BYTES;
use blk_base::{Key, put_bytes};
use block_table::{BlockTable, Tree};
use cow_tree::{delete, get, put, replace};

/// Puts bytes under a key, in place of those that are there, if any.
pub fn write_item(table: &mut BlockTable, tree: &mut Tree, key: Key, bytes: &[u8])
    requires tree { IsTree table.old tree.old }
    requires current { AreCurrent table.old (tree_reach table.old tree.old) }
    requires short { length bytes.now ≤ MOST_ITEM_BYTES }
    requires spare { 17 ≤ table.old.spare }
    requires free { 17 ≤ free_blocks table.old }
    ensures { IsItemEdit table.old table.new tree.old tree.new key (Some bytes.now) }
{
    if get(table, tree, &key).is_some() {
        replace(table, tree, key, bytes);
    } else {
        put(table, tree, key, bytes);
    }
}

/// Takes the item under a key out, which the tree has.
pub fn remove_item(table: &mut BlockTable, tree: &mut Tree, key: Key)
    requires tree { IsTree table.old tree.old }
    requires current { AreCurrent table.old (tree_reach table.old tree.old) }
    requires present { IsSome (data_under key (tree_items table.old tree.old)) }
    requires spare { 17 ≤ table.old.spare }
    requires free { 17 ≤ free_blocks table.old }
    ensures { IsItemEdit table.old table.new tree.old tree.new key None }
{
    delete(table, tree, &key);
}

/// How many bytes stand under a key; 0 where the tree hasn't it.
pub fn item_len(table: &BlockTable, tree: &Tree, key: &Key) -> usize
    requires { IsTree table.now tree.now }
    ensures { result ≡ length (bytes_under key.now (tree_items table.now tree.now)) }
{
    match get(table, tree, key) {
        Some(bytes) => bytes.len(),
        None => 0,
    }
}

/// Copies the bytes under a key to the front, and tells how many they are.
fn copy_item(table: &BlockTable, tree: &Tree, key: &Key, into: &mut [u8; MOST_ITEM_BYTES]) -> usize
    requires tree { IsTree table.now tree.now }
    requires short { length (bytes_under key.now (tree_items table.now tree.now)) ≤ MOST_ITEM_BYTES }
    ensures count { result ≡ length (bytes_under key.now (tree_items table.now tree.now)) }
    ensures front { take result into.new ≡ bytes_under key.now (tree_items table.now tree.now) }
{
    match get(table, tree, key) {
        Some(bytes) => {
            put_bytes(into, 0, bytes);
            bytes.len()
        }
        None => 0,
    }
}

/// Puts bytes behind those under a key, or under it where there are none, with 3970 bytes of the item at most then.
pub fn append_bytes(table: &mut BlockTable, tree: &mut Tree, key: Key, bytes: &[u8])
    requires tree { IsTree table.old tree.old }
    requires current { AreCurrent table.old (tree_reach table.old tree.old) }
    requires short { length (bytes_under key (tree_items table.old tree.old)) + length bytes.now ≤ MOST_ITEM_BYTES }
    requires spare { 17 ≤ table.old.spare }
    requires free { 17 ≤ free_blocks table.old }
    ensures { IsItemEdit table.old table.new tree.old tree.new key (Some (bytes_under key (tree_items table.old tree.old) ++ bytes.now)) }
{
    let mut whole = [0; MOST_ITEM_BYTES];
    let count = copy_item(table, tree, &key, &mut whole);
    let end = count + bytes.len();
    put_bytes(&mut whole, count, bytes);
    write_item(table, tree, key, &whole[..end]);
}

/// Copies the bytes under a key but for those from one place to another to the front, and tells how many they are.
fn copy_around(
    table: &BlockTable,
    tree: &Tree,
    key: &Key,
    from: usize,
    to: usize,
    into: &mut [u8; MOST_ITEM_BYTES],
) -> usize
    requires tree { IsTree table.now tree.now }
    requires present { IsSome (data_under key.now (tree_items table.now tree.now)) }
    requires order { from ≤ to }
    requires inside { to ≤ length (bytes_under key.now (tree_items table.now tree.now)) }
    requires short { length (bytes_under key.now (tree_items table.now tree.now)) ≤ MOST_ITEM_BYTES }
    ensures count { result ≡ from + (length (bytes_under key.now (tree_items table.now tree.now)) - to) }
    ensures front { take result into.new ≡ take from (bytes_under key.now (tree_items table.now tree.now)) ++ drop to (bytes_under key.now (tree_items table.now tree.now)) }
{
    match get(table, tree, key) {
        Some(bytes) => {
            put_bytes(into, 0, &bytes[..from]);
            put_bytes(into, from, &bytes[to..]);
            from + (bytes.len() - to)
        }
        None => unreachable!(),
    }
}

/// Takes the bytes from one place to another out of those under a key; the item goes where none is left.
pub fn cut_bytes(table: &mut BlockTable, tree: &mut Tree, key: Key, from: usize, to: usize)
    requires tree { IsTree table.old tree.old }
    requires current { AreCurrent table.old (tree_reach table.old tree.old) }
    requires present { IsSome (data_under key (tree_items table.old tree.old)) }
    requires order { from ≤ to }
    requires inside { to ≤ length (bytes_under key (tree_items table.old tree.old)) }
    requires short { length (bytes_under key (tree_items table.old tree.old)) ≤ MOST_ITEM_BYTES }
    requires spare { 17 ≤ table.old.spare }
    requires free { 17 ≤ free_blocks table.old }
    ensures { IsItemEdit table.old table.new tree.old tree.new key
        (item_bytes (take from (bytes_under key (tree_items table.old tree.old)) ++ drop to (bytes_under key (tree_items table.old tree.old)))) }
{
    let mut whole = [0; MOST_ITEM_BYTES];
    let count = copy_around(table, tree, &key, from, to, &mut whole);
    if count == 0 {
        remove_item(table, tree, key);
    } else {
        write_item(table, tree, key, &whole[..count]);
    }
}
