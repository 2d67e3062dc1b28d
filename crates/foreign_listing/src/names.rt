//! The names of a directory in the order of their bytes.
ghost use Rattle.std.specs.Prelude.{◌≡◌, ◌≢◌, [], IfErr, IfOk, length, map, vec_len};
ghost use Rattle.std.specs.Ordering.{nat_cmp};
ghost use Rattle.std.specs.Cmp.Lexicographic.{slice_cmp};
ghost use Rattle.foreign_format.specs.declared.fault.ReadFault.{ReadFault};
ghost use Rattle.foreign_format.specs.Answer.{Answers};
ghost use Rattle.foreign_items.specs.View.{name_view};
ghost use Rattle.foreign_listing.specs.Names.{in_byte_order, rows_of};
ghost use Rattle.foreign_listing.specs.View.{entries_view, put_entries};

use crate::by_inode::of_inode;
use crate::tree::Tree;
use foreign_format::{ForeignFault, ReadFault};
use foreign_items::{Name, NameRow};
use std::alloc::Global;
use std::cmp::Ordering;

/// The names of rows, in the order of these, or the first row's fault.
fn names_in<'a>(alloc: Global, rows: &'a [NameRow]) -> Result<Vec<&'a Name>, ReadFault>
    ensures answer { Answers (λ names. put_entries [] (entries_view names.items)) result (in_byte_order [] (map name_view rows.now)) }
    ensures len { IfOk result (λ names. vec_len names ≡ length rows.now) }
    ensures no_disk { IfErr result (λ fault. fault ≢ ReadFault.Disk) }
{
    let mut names = Vec::new(alloc);
    for row in rows {
        match &row.name {
            Ok(name) => names.push(name)?,
            Err(fault) => {
                return Err(ReadFault::Foreign(ForeignFault::Item(row.leaf, row.key, *fault)));
            }
        }
    }
    Ok(names)
}

/// How the bytes of two names are ordered.
fn order_of(one: &Name, other: &Name) -> Ordering
    ensures { result ≡ slice_cmp nat_cmp one.now.bytes.items other.now.bytes.items }
{
    one.bytes.as_slice().cmp(other.bytes.as_slice())
}

/// The names of rows in the order of their bytes, or the first row's fault.
fn in_byte_order<'a>(alloc: Global, rows: &'a [NameRow]) -> Result<Vec<&'a Name>, ReadFault>
    ensures answer { Answers (λ names. entries_view names.items) result (in_byte_order [] (map name_view rows.now)) }
    ensures len { IfOk result (λ names. vec_len names ≡ length rows.now) }
    ensures no_disk { IfErr result (λ fault. fault ≢ ReadFault.Disk) }
{
    let mut names = names_in(alloc, rows)?;
    names.sort_by(|one, other| order_of(one, other))?;
    Ok(names)
}

/// The names of a directory in the order of their bytes, or the first fault of its rows. Takes n log n steps for n names.
pub(crate) fn names_of<'a>(
    alloc: Global,
    tree: &'a Tree,
    dir: u64,
) -> Result<Vec<&'a Name>, ReadFault>
    ensures answer { Answers (λ names. entries_view names.items) result (in_byte_order [] (rows_of dir (map name_view tree.now.names.items))) }
    ensures len { IfOk result (λ names. vec_len names ≡ length (rows_of dir (map name_view tree.now.names.items))) }
    ensures no_disk { IfErr result (λ fault. fault ≢ ReadFault.Disk) }
{
    in_byte_order(alloc, of_inode(&tree.names, dir))
}
