//! The search for the inodes that an fsync draws: from one inode to the next, by the rules.
ghost use Rattle.std.specs.Prelude.{◌≡◌, ◌+◌, ◌++◌, ◌∷◌, ℕ, [], not, cond, IfOk, IsTrue, OnOk, Contains, length};
ghost use Rattle.flat_model.specs.Coherent.{IsCoherent};
ghost use Rattle.flat_model.specs.Volume.{is_dir_at};
ghost use Rattle.logged_volume.specs.Numbers.{add_number, is_in};
ghost use Rattle.drawn_set.specs.Search.{Climbs, ClimbsAll, Draws, DrawsAll, DrawsDiffering, DrawsFirst, Follows, Grows, IsEmpty, Visits};

use crate::names::{do_differ, inodes_in_either, is_out_of_step, parent, parents};
use crate::slots::in_slot_of;
use blk_base::{Ino, OutOfMemory};
use flat_model::NameView;
use std::alloc::Global;
use std::collections::BTreeSet;

/// What a search has found so far.
#[derive(Drop)]
pub(crate) struct Search {
    /// The inodes that are drawn.
    pub(crate) members: BTreeSet<u64>,
    /// The directories above those of them that are there, and whose names were compared.
    pub(crate) above: BTreeSet<u64>,
    /// The members whose slots weren't looked at yet.
    pub(crate) fresh: Vec<u64>,
}

impl Search {
    /// Nothing found.
    pub(crate) fn new(alloc: Global) -> Search
        ensures { IsEmpty result }
    {
        Search {
            members: BTreeSet::new(alloc),
            above: BTreeSet::new(alloc),
            fresh: Vec::new(alloc),
        }
    }

    /// Adds a member, and says whether it wasn't one.
    fn add(&mut self, ino: u64) -> Result<bool, OutOfMemory>
        ensures new { IfOk result (λ is_new. is_new ≡ not (is_in self.old.members.keys ino)) }
        ensures members { OnOk result (self.new.members.keys ≡ add_number ino self.old.members.keys) }
        ensures above { OnOk result (self.new.above.keys ≡ self.old.above.keys) }
        ensures count { IfOk result (λ is_new. length self.new.members.keys ≡ length self.old.members.keys + cond is_new 1 0) }
        ensures fresh { IfOk result (λ is_new. self.new.fresh.items ≡ cond is_new (self.old.fresh.items ++ ino ∷ []) self.old.fresh.items) }
    {
        if !self.members.insert(ino)? {
            return Ok(false);
        }
        self.fresh.push(ino)?;
        Ok(true)
    }

    /// Notes a directory above a member, which is drawn where it is out of step, and gives the directory to go on with,
    /// where there is one and this one wasn't noted before.
    fn visit<A: NameView, B: NameView>(
        &mut self,
        alloc: Global,
        current: &A,
        recovered: &B,
        dir: u64,
    ) -> Result<Option<u64>, OutOfMemory>
        requires coherent { IsCoherent (A.sub current.now) }
        requires dir { IsTrue (is_dir_at (A.sub current.now) dir) }
        ensures grows { OnOk result (Grows self.old self.new) }
        ensures visits { IfOk result (λ next. Visits (A.sub current.now) (B.sub recovered.now) dir next self.old self.new) }
    {
        if !self.above.insert(dir)? {
            return Ok(None);
        }
        if is_out_of_step(alloc, current, recovered, dir)? {
            self.add(dir)?;
        }
        parent(alloc, current, dir)
    }

    /// Goes up from a directory to the first that was noted before, or to the root directory.
    fn climb<A: NameView, B: NameView>(
        &mut self,
        alloc: Global,
        current: &A,
        recovered: &B,
        dir: u64,
    ) -> Result<(), OutOfMemory>
        requires coherent { IsCoherent (A.sub current.now) }
        requires dir { IsTrue (is_dir_at (A.sub current.now) dir) }
        ensures grows { OnOk result (Grows self.old self.new) }
        ensures climbs { OnOk result (Climbs (A.sub current.now) (B.sub recovered.now) dir self.old self.new) }
    {
        let mut at = dir;
        while let Some(parent) = self.visit(alloc, current, recovered, at)? {
            at = parent;
        }
        Ok(())
    }

    /// Goes up from each of these directories.
    fn climb_all<A: NameView, B: NameView>(
        &mut self,
        alloc: Global,
        current: &A,
        recovered: &B,
        dirs: &[u64],
    ) -> Result<(), OutOfMemory>
        requires coherent { IsCoherent (A.sub current.now) }
        requires dirs { (dir : ℕ) → Contains dirs.now dir → IsTrue (is_dir_at (A.sub current.now) dir) }
        ensures grows { OnOk result (Grows self.old self.new) }
        ensures climbs { OnOk result (ClimbsAll (A.sub current.now) (B.sub recovered.now) dirs.now self.old self.new) }
    {
        for dir in dirs {
            self.climb(alloc, current, recovered, *dir)?;
        }
        Ok(())
    }

    /// Draws an inode, and where it is there each directory above it that is out of step.
    fn draw<A: NameView, B: NameView>(
        &mut self,
        alloc: Global,
        current: &A,
        recovered: &B,
        ino: u64,
    ) -> Result<(), OutOfMemory>
        requires { IsCoherent (A.sub current.now) }
        ensures grows { OnOk result (Grows self.old self.new) }
        ensures draws { OnOk result (Draws (A.sub current.now) (B.sub recovered.now) ino self.old self.new) }
    {
        if !self.add(ino)? || !current.has(Ino(ino)) {
            return Ok(());
        }
        let dirs = parents(alloc, current, ino)?;
        self.climb_all(alloc, current, recovered, &dirs)
    }

    /// Draws each of these inodes.
    fn draw_all<A: NameView, B: NameView>(
        &mut self,
        alloc: Global,
        current: &A,
        recovered: &B,
        inos: &[u64],
    ) -> Result<(), OutOfMemory>
        requires { IsCoherent (A.sub current.now) }
        ensures grows { OnOk result (Grows self.old self.new) }
        ensures draws { OnOk result (DrawsAll (A.sub current.now) (B.sub recovered.now) inos.now self.old self.new) }
    {
        for ino in inos {
            self.draw(alloc, current, recovered, *ino)?;
        }
        Ok(())
    }

    /// Draws those of these inodes whose names differ.
    fn draw_differing<A: NameView, B: NameView>(
        &mut self,
        alloc: Global,
        current: &A,
        recovered: &B,
        inos: &[u64],
    ) -> Result<(), OutOfMemory>
        requires { IsCoherent (A.sub current.now) }
        ensures grows { OnOk result (Grows self.old self.new) }
        ensures draws { OnOk result (DrawsDiffering (A.sub current.now) (B.sub recovered.now) inos.now self.old self.new) }
    {
        for ino in inos {
            if do_differ(alloc, current, recovered, *ino)? {
                self.draw(alloc, current, recovered, *ino)?;
            }
        }
        Ok(())
    }

    /// Draws the target, and where it is a directory each inode with a name in it, in either view, whose names differ (own).
    pub(crate) fn draw_first<A: NameView, B: NameView>(
        &mut self,
        alloc: Global,
        current: &A,
        recovered: &B,
        target: u64,
    ) -> Result<(), OutOfMemory>
        requires { IsCoherent (A.sub current.now) }
        ensures grows { OnOk result (Grows self.old self.new) }
        ensures draws { OnOk result (DrawsFirst (A.sub current.now) (B.sub recovered.now) target self.old self.new) }
    {
        self.draw(alloc, current, recovered, target)?;
        if !current.is_dir(Ino(target)) {
            return Ok(());
        }
        let inos = inodes_in_either(alloc, current, recovered, target)?;
        self.draw_differing(alloc, current, recovered, &inos)
    }

    /// Draws each inode that the recovered view has in a slot that a member has in the current one (own).
    pub(crate) fn follow<A: NameView, B: NameView>(
        &mut self,
        alloc: Global,
        current: &A,
        recovered: &B,
        member: u64,
    ) -> Result<(), OutOfMemory>
        requires coherent { IsCoherent (A.sub current.now) }
        requires recovered_coherent { IsCoherent (B.sub recovered.now) }
        ensures grows { OnOk result (Grows self.old self.new) }
        ensures draws { OnOk result (Follows (A.sub current.now) (B.sub recovered.now) member self.old self.new) }
    {
        if !current.has(Ino(member)) {
            return Ok(());
        }
        let names = current.names_of(alloc, Ino(member))?;
        for name in &names {
            let inos = in_slot_of(alloc, current, recovered, name)?;
            self.draw_all(alloc, current, recovered, &inos)?;
        }
        Ok(())
    }
}
