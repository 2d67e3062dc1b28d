ghost use Rattle.std.specs.Prelude.{◌≡◌};
ghost use Rattle.blk_base.specs.Name.{is_name as name_test};

use blk_base::is_name;

/// Whether the bytes may be the name of a file.
#[tactic(auto, using(item_laws::specs::Names::is_name_same))]
pub fn is_plain_name(name: &[u8]) -> bool
    ensures { result ≡ name_test name.now }
{
    is_name(name)
}
