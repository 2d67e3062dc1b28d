use tree_blocks::Child;

/// What stands in place of a block after an edit below it: one to three blocks, each with its first key.
#[derive(Clone, Copy, Debug)]
pub(crate) enum Pieces {
    One(Child),
    Two(Child, Child),
    Three(Child, Child, Child),
}
