//! One name, and the names of one item.
ghost use Rattle.std.specs.Prelude.{◌≡◌, ◌↔◌, ◌≤◌, ◌++◌, [], ◌∷◌, length, IsTrue, OnOk};
ghost use Rattle.std.specs.Str.{bytes_eq};
ghost use Rattle.blk_base.specs.Entries.{dots, extrefs_of, is_dots_place, refs_of};
ghost use Rattle.image_faults.specs.Said.{is_own_ref, names_in, read_list};
ghost use Rattle.coherent_names.specs.Names.{far_names, flat_names, near_names, own_refs};

use blk_base::format::{DOTS, FIRST_FREE, INODE_EXTREF, INODE_REF};
use blk_base::{Ino, Key, OutOfMemory};
use inode_lines::Ref;
use item_inode::{ExtRefs, Refs};

/// A name of an inode, and whether a near ref says it or a far one ("INODE_REF" and "INODE_EXTREF" of the Btrfs on-disk
/// format).
#[derive(Clone, Copy, Debug, PartialEq, Eq, Drop)]
pub struct Name<'t> {
    pub found: Ref<'t>,
    pub near: bool,
}

/// Whether a name is `..`.
fn is_dots(name: &[u8]) -> bool
    ensures { result ≡ bytes_eq name.now dots }
{
    name == DOTS
}

/// Whether a key is that of the root directory's name for itself.
fn is_dots_place(key: &Key) -> bool
    ensures { result ≡ is_dots_place key.now }
{
    key.objectid == FIRST_FREE && key.kind == INODE_REF && key.offset == FIRST_FREE
}

/// Whether a ref is the root directory's name for itself, which is none of its names.
fn is_own_ref(key: &Key, index: u64, name: &[u8]) -> bool
    ensures { result ≡ is_own_ref key.now (record { index = index; name = name.now }) }
{
    is_dots_place(key) && (index == 0 && is_dots(name))
}

/// Adds the name that a near ref says.
fn add_near<'t>(
    names: &mut Vec<Name<'t>>,
    key: &Key,
    index: u64,
    name: &'t [u8],
) -> Result<(), OutOfMemory>
    ensures { OnOk result (flat_names names.new.items ≡ flat_names names.old.items ++ near_names key.now (record { index = index; name = name.now } ∷ [])) }
{
    if is_own_ref(key, index, name) {
        return Ok(());
    }
    names.push(Name {
        found: Ref {
            ino: Ino(key.objectid),
            dir: Ino(key.offset),
            index,
            name,
        },
        near: true,
    })?;
    Ok(())
}

/// Adds the names that near refs say.
fn add_refs<'t>(names: &mut Vec<Name<'t>>, key: &Key, refs: Refs<'t>) -> Result<(), OutOfMemory>
    ensures { OnOk result (flat_names names.new.items ≡ flat_names names.old.items ++ near_names key.now refs.entry) }
{
    for (index, name) in refs {
        add_near(names, key, index, name)?;
    }
    Ok(())
}

/// Adds the name that a far ref says.
fn add_far<'t>(
    names: &mut Vec<Name<'t>>,
    key: &Key,
    dir: Ino,
    index: u64,
    name: &'t [u8],
) -> Result<(), OutOfMemory>
    ensures { OnOk result (flat_names names.new.items ≡ flat_names names.old.items ++ far_names key.now (record { parent = dir.0; index = index; name = name.now } ∷ [])) }
{
    names.push(Name {
        found: Ref {
            ino: Ino(key.objectid),
            dir,
            index,
            name,
        },
        near: false,
    })?;
    Ok(())
}

/// Adds the names that far refs say.
fn add_extrefs<'t>(
    names: &mut Vec<Name<'t>>,
    key: &Key,
    refs: ExtRefs<'t>,
) -> Result<(), OutOfMemory>
    ensures { OnOk result (flat_names names.new.items ≡ flat_names names.old.items ++ far_names key.now refs.entry) }
{
    for (dir, index, name) in refs {
        add_far(names, key, dir, index, name)?;
    }
    Ok(())
}

/// Adds the names that an item of near refs says; one that can't be read says none.
fn add_near_item<'t>(
    names: &mut Vec<Name<'t>>,
    key: &Key,
    bytes: &'t [u8],
) -> Result<(), OutOfMemory>
    ensures { OnOk result (flat_names names.new.items ≡ flat_names names.old.items ++ near_names key.now (read_list (refs_of key.now bytes.now))) }
{
    match Refs::open(key, bytes) {
        Ok(refs) => add_refs(names, key, refs),
        Err(_) => Ok(()),
    }
}

/// Adds the names that an item of far refs says; one that can't be read says none.
fn add_far_item<'t>(
    names: &mut Vec<Name<'t>>,
    key: &Key,
    bytes: &'t [u8],
) -> Result<(), OutOfMemory>
    ensures { OnOk result (flat_names names.new.items ≡ flat_names names.old.items ++ far_names key.now (read_list (extrefs_of bytes.now))) }
{
    match ExtRefs::open(bytes) {
        Ok(refs) => add_extrefs(names, key, refs),
        Err(_) => Ok(()),
    }
}

/// Adds the names that an item says.
pub(crate) fn add_item<'t>(
    names: &mut Vec<Name<'t>>,
    key: &Key,
    bytes: &'t [u8],
) -> Result<(), OutOfMemory>
    ensures { OnOk result (flat_names names.new.items ≡ flat_names names.old.items ++ names_in (key.now, bytes.now)) }
{
    match key.kind {
        INODE_REF => add_near_item(names, key, bytes),
        INODE_EXTREF => add_far_item(names, key, bytes),
        _ => Ok(()),
    }
}

/// Whether the root directory's name for itself stands at most once among near refs.
fn is_own_once(key: &Key, refs: Refs<'_>) -> bool
    ensures { IsTrue result ↔ (length (own_refs key.now refs.entry) ≤ 1) }
{
    let mut seen = false;
    for (index, name) in refs {
        if is_own_ref(key, index, name) {
            if seen {
                return false;
            }
            seen = true;
        }
    }
    true
}

/// Whether the root directory's name for itself stands at most once in an item of near refs ("INODE_REF" of the Btrfs
/// on-disk format).
pub fn has_own_ref_once(key: &Key, bytes: &[u8]) -> bool
    ensures { IsTrue result ↔ (length (own_refs key.now (read_list (refs_of key.now bytes.now))) ≤ 1) }
{
    match Refs::open(key, bytes) {
        Ok(refs) => is_own_once(key, refs),
        Err(_) => true,
    }
}
