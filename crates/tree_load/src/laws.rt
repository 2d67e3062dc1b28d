//! Laws of tables that trees are loaded into: the functions here have no parameters and no body.
ghost use Rattle.std.specs.Prelude.{◌++◌, [], ℕ, Bool, List};
ghost use Rattle.block_table.specs.Table.{Table, empty_table};
ghost use Rattle.tree_load.specs.Loaded.{AreTaken, IsLoad, taken_of};

/// Every table has a list of the addresses of its blocks that aren't Free.
pub fn taken_blocks_are_listed()
    ensures { (table : Table) → AreTaken table (taken_of table) }
{}

/// A table in which no block is used has none.
pub fn an_empty_table_has_none()
    ensures { (blocks : ℕ) → AreTaken (empty_table blocks) [] }
{}

/// After a load the addresses that were loaded stand behind those from before.
pub fn loaded_blocks_are_taken()
    ensures { (is_data : Bool) (old new : Table) (reached reach : List ℕ) → IsLoad is_data old new reach → AreTaken old reached → AreTaken new (reached ++ reach) }
{}
