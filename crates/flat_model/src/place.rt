ghost use Rattle.std.specs.Prelude.{◌≡◌, ◌≤◌, ℕ, List, length, IfOk};

use blk_base::{Name, OutOfMemory, SubId};
use std::alloc::Global;
use std::marker::Model;

/// The names of a path from the root directory of a subvolume on, at most 64 of them; none is the root directory
/// itself. Seen as the list of the names (own limit).
#[derive(Drop, Debug)]
pub struct Path {
    names: Vec<Name>,
}

impl Model for Path {
    ghost Value = { List (List ℕ) };

    ghost view = { λ path. path.names.items };

    ghost invariant = { λ path. length path.names.items ≤ 64 };
}

impl Path {
    /// The path of these names, at most 64.
    pub fn new(names: Vec<Name>) -> Path
        requires { length names.items ≤ 64 }
        ensures { result ≡ names.items }
    {
        Path { names }
    }

    /// Its names, from the root directory on.
    pub fn names(&self) -> &[Name]
        ensures value { result.now ≡ self.now }
        ensures few { length result.now ≤ 64 }
    {
        self.names.as_slice()
    }

    /// A copy of it.
    pub fn copy(&self, alloc: Global) -> Result<Path, OutOfMemory>
        ensures { IfOk result (λ path. path ≡ self.now) }
    {
        let mut names = Vec::with_capacity(alloc, self.names.len())?;
        for name in &self.names {
            names.push(name.copy(alloc)?)?;
        }
        Ok(Path { names })
    }
}

/// A path of a subvolume.
#[derive(Drop, Debug)]
pub struct Place {
    pub sub: SubId,
    pub path: Path,
}

impl Place {
    /// A copy of it.
    pub fn copy(&self, alloc: Global) -> Result<Place, OutOfMemory>
        ensures { IfOk result (λ place. place ≡ self.now) }
    {
        Ok(Place {
            sub: self.sub,
            path: self.path.copy(alloc)?,
        })
    }
}
