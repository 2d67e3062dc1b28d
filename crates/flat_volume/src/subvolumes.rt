//! The subvolumes of a volume, one after the other.
ghost use Rattle.std.specs.Prelude.{◌≡◌, map, All};
ghost use Rattle.std.specs.FinMap.{entries};
ghost use Rattle.flat_sub.specs.View.{sub_view, IsWellKept};

use crate::FlatVolume;
use flat_sub::FlatSub;

impl FlatVolume {
    /// The subvolumes with their numbers, in rising order.
    pub fn subvolumes(&self) -> &Vec<(u64, FlatSub)>
        ensures entries { map (λ entry. (entry.0, sub_view entry.1)) result.now.items ≡ entries self.now }
        ensures kept { All (λ entry. IsWellKept entry.1) result.now.items }
    {
        &self.subs
    }
}
