//! A loss of power in a boot.
use mc_tear::Reading;

/// A loss of power in a boot.
#[derive(Clone, Copy, Debug)]
pub struct Loss {
    /// How many operations of the boot happened before.
    pub operation: u32,
    /// What the next boot reads of the next operation, within which power is lost; none where it is lost before that.
    pub within: Option<Reading>,
}
