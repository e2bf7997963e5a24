//! What takes an operation back.
use crate::op::Slot;

/// What takes an operation back, by slot, offset and length.
#[derive(Clone, Copy)]
pub enum Entry {
    /// The bytes were 0xff before they were written.
    Written(Slot, u32, u32),
    /// The bytes were saved before they were erased.
    Erased(Slot, u32, u32),
}
