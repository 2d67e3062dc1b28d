//! The end of a full commit.
ghost use Rattle.std.specs.Prelude.{◌≡◌, [], Contains, None, Some, ℕ};
ghost use Rattle.block_table.specs.TreeIn.{block_at};
ghost use Rattle.block_table.specs.declared.state.SlotState.TheVariants.{LetGo};
ghost use Rattle.block_table.specs.declared.tree.Tree.{Tree as RootTree};
ghost use Rattle.blk_base.specs.Bytes.{Image};
ghost use Rattle.commit_images.specs.Scene.{Commit, HasFailed, IsWritten, NotTried, Scene};
ghost use Rattle.flat_model.specs.Volume.{RunVolume};
ghost use Rattle.commit_blocks.specs.Keeps.{KeepsBlocks, numbered_at};
ghost use Rattle.table_commit.specs.Commit.{addresses_of};
ghost use Rattle.tree_range.specs.Shape.{tree_reach};
ghost use Rattle.commit_blocks.specs.Steps.{AreLetGoBehind, IsEnded, IsListOut, IsRunning, KeepsRest, released_by};

use crate::Kept;
use block_table::{Blocks, Tree};
use table_commit::{let_go_tree, release_noted, release_tree, settle_sealed, unseal_sealed};

impl Kept {
    /// The superblock of the full commit is written: its blocks are on the device, what was let go before its seal is Free,
    /// and its root tree is let go, since no current tree has it (own).
    pub fn finish(&mut self, list: Blocks)
        requires has { (image : Image) × (run : RunVolume) × (scene : Scene) × KeepsBlocks self.old image run scene }
        requires running { IsRunning self.old }
        requires list { IsListOut self.old list }
        ensures keeps { (image : Image) (run : RunVolume) (scene next : Scene) → KeepsBlocks self.old image run scene → scene.progress ≡ IsWritten
            → IsEnded scene next → KeepsBlocks self.new image run next }
        ensures rest { KeepsRest self.old self.new }
        ensures last { self.old.sealed ≡ Some self.new.last }
        ensures failed { self.new.failed ≡ None }
        ensures let_go { AreLetGoBehind self.old.table self.new.table (tree_reach self.new.table self.new.last) (addresses_of self.old.let_go.items) }
        ensures reached { (image : Image) (run : RunVolume) (scene : Scene) → KeepsBlocks self.old image run scene → scene.progress ≡ IsWritten
            → (commit : Commit) → Contains scene.found commit → (at : ℕ) → (block_at self.new.table at).state ≡ LetGo
            → Contains commit.blocks (numbered_at self.new.table at) }
    {
        self.table.put_back(list);
        settle_sealed(&mut self.table);
        release_noted(&mut self.table, &mut self.let_go);
        let Some(root) = self.sealed.take() else {
            unreachable!()
        };
        let_go_tree(&mut self.table, &root);
        self.last = root;
        self.failed = None;
    }

    /// The full commit failed before the write of its superblock: no superblock reaches its blocks, which are edited again,
    /// and its root tree goes (own).
    pub fn take_back(&mut self, list: Blocks)
        requires has { (image : Image) × (run : RunVolume) × (scene : Scene) × KeepsBlocks self.old image run scene × (scene.progress ≡ NotTried) }
        requires running { IsRunning self.old }
        requires list { IsListOut self.old list }
        ensures keeps { (image : Image) (run : RunVolume) (scene next : Scene) → KeepsBlocks self.old image run scene → scene.progress ≡ NotTried
            → IsEnded scene next → KeepsBlocks self.new image run next }
        ensures rest { KeepsRest self.old self.new }
        ensures last { self.new.last ≡ self.old.last }
        ensures failed { self.new.failed ≡ self.old.failed }
        ensures let_go { AreLetGoBehind self.old.table self.new.table [] [] }
    {
        self.table.put_back(list);
        unseal_sealed(&mut self.table);
        self.let_go.clear();
        let Some(root) = self.sealed.take() else {
            unreachable!()
        };
        let_go_tree(&mut self.table, &root);
    }

    /// The write of the full commit's superblock failed: a crash may find it, or the one that was written or tried last
    /// before it, and no older one. So its root tree is let go, and the one of an older superblock is Free (own).
    pub fn keep_tried(&mut self, list: Blocks)
        requires has { (image : Image) × (run : RunVolume) × (scene : Scene) × KeepsBlocks self.old image run scene × (scene.progress ≡ HasFailed) }
        requires running { IsRunning self.old }
        requires list { IsListOut self.old list }
        ensures keeps { (image : Image) (run : RunVolume) (scene next : Scene) → KeepsBlocks self.old image run scene → scene.progress ≡ HasFailed
            → IsEnded scene next → KeepsBlocks self.new image run next }
        ensures rest { KeepsRest self.old self.new }
        ensures failed { self.new.failed ≡ self.old.sealed }
        ensures let_go { (root : RootTree) → self.old.sealed ≡ Some root
            → AreLetGoBehind self.old.table self.new.table (tree_reach self.new.table root) (released_by self.old self.old.failed) }
    {
        match self.failed {
            None => self.keep_first(list),
            Some(tree) => self.keep_later(list, tree),
        }
    }

    /// So it is where no write of a superblock failed before since the last one that was written.
    fn keep_first(&mut self, list: Blocks)
        requires has { (image : Image) × (run : RunVolume) × (scene : Scene) × KeepsBlocks self.old image run scene × (scene.progress ≡ HasFailed) }
        requires running { IsRunning self.old }
        requires list { IsListOut self.old list }
        requires first { self.old.failed ≡ None }
        ensures keeps { (image : Image) (run : RunVolume) (scene next : Scene) → KeepsBlocks self.old image run scene → scene.progress ≡ HasFailed
            → IsEnded scene next → KeepsBlocks self.new image run next }
        ensures rest { KeepsRest self.old self.new }
        ensures failed { self.new.failed ≡ self.old.sealed }
        ensures let_go { (root : RootTree) → self.old.sealed ≡ Some root
            → AreLetGoBehind self.old.table self.new.table (tree_reach self.new.table root) (released_by self.old self.old.failed) }
    {
        self.table.put_back(list);
        settle_sealed(&mut self.table);
        self.let_go.clear();
        let Some(root) = self.sealed.take() else {
            unreachable!()
        };
        let_go_tree(&mut self.table, &root);
        self.failed = Some(root);
    }

    /// So it is where the write of one with this root tree failed before, which was written again since then.
    fn keep_later(&mut self, list: Blocks, tree: Tree)
        requires has { (image : Image) × (run : RunVolume) × (scene : Scene) × KeepsBlocks self.old image run scene × (scene.progress ≡ HasFailed) }
        requires running { IsRunning self.old }
        requires list { IsListOut self.old list }
        requires later { self.old.failed ≡ Some tree }
        ensures keeps { (image : Image) (run : RunVolume) (scene next : Scene) → KeepsBlocks self.old image run scene → scene.progress ≡ HasFailed
            → IsEnded scene next → KeepsBlocks self.new image run next }
        ensures rest { KeepsRest self.old self.new }
        ensures failed { self.new.failed ≡ self.old.sealed }
        ensures let_go { (root : RootTree) → self.old.sealed ≡ Some root
            → AreLetGoBehind self.old.table self.new.table (tree_reach self.new.table root) (released_by self.old self.old.failed) }
    {
        self.table.put_back(list);
        settle_sealed(&mut self.table);
        self.let_go.clear();
        let Some(root) = self.sealed.take() else {
            unreachable!()
        };
        let_go_tree(&mut self.table, &root);
        release_tree(&mut self.table, &self.last);
        self.last = tree;
        self.failed = Some(root);
    }
}
