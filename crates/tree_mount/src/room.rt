//! Whether enough blocks are free for a mount.
ghost use Rattle.std.specs.Prelude.{◌≡◌, ◌≤◌, ◌<◌, IfErr, OnOk};
ghost use Rattle.volume_image.specs.Stands.{free_of, mount_need};

use crate::MountFault;

/// The blocks that never count as free (own).
const KEPT_BACK: u32 = 82;

/// The blocks that have to be free for a mount (own).
const MOUNT_NEED: u64 = 116;

/// Checks that enough blocks of a volume of so many are free where so many are used.
pub(crate) fn check_room(blocks: u32, used: u32) -> Result<(), MountFault>
    ensures ok { OnOk result (mount_need ≤ free_of blocks used) }
    ensures less { IfErr result (λ _. free_of blocks used < mount_need) }
    ensures fault { IfErr result (λ fault. fault ≡ MountFault.NoRoom (free_of blocks used) mount_need) }
{
    let free = u64::from(blocks.saturating_sub(KEPT_BACK).saturating_sub(used));
    if free < MOUNT_NEED {
        return Err(MountFault::NoRoom {
            free,
            need: MOUNT_NEED,
        });
    }
    Ok(())
}
