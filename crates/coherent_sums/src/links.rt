//! How many names each inode has.
ghost use Rattle.std.specs.Prelude.{◌≡◌, ℕ, count_by, IfOk};
ghost use Rattle.flat_model.specs.Names.{leads_to};
ghost use Rattle.coherent_names.specs.Names.{flat_names};
ghost use Rattle.coherent_sums.specs.Sums.{links_in};

use blk_base::{Ino, OutOfMemory};
use coherent_names::Name;
use std::alloc::Global;
use std::collections::BTreeMap;

/// How many names each inode has.
#[derive(Drop)]
pub struct Links {
    counts: BTreeMap<u64, u64>,
}

impl Links {
    /// How many names an inode has.
    pub fn count(&self, ino: Ino) -> u64
        ensures { result ≡ links_in self.now ino.0 }
    {
        self.counts.get(&ino.0).copied().unwrap_or(0)
    }
}

/// How many of these names each inode has ("INODE_ITEM" of the Btrfs on-disk format: nlink).
pub fn links_of(alloc: Global, names: &[Name<'_>]) -> Result<Links, OutOfMemory>
    ensures { IfOk result (λ links. (ino : ℕ) → links_in links ino ≡ count_by (leads_to ino) (flat_names names.now)) }
{
    let mut counts = BTreeMap::new(alloc);
    for name in names {
        let ino = name.found.ino.0;
        let count = counts.get(&ino).copied().unwrap_or(0);
        counts.insert(ino, count + 1)?;
    }
    Ok(Links { counts })
}
