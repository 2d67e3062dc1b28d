/// What a block of the table is used for (own).
#[derive(Clone, Copy, Debug, PartialEq, Eq)]
pub enum SlotState {
    /// It has no buffer, and may be taken.
    Free,
    /// It may be written, and no device has it.
    Dirty,
    /// It was handed out to be written to the device.
    Sealed,
    /// The device has it.
    Live,
    /// No current tree has it, and a crash may still find it on the device.
    LetGo,
}
