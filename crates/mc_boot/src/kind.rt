//! What a start flash asks for.
/// What the flash asks a boot for.
#[derive(Clone, Copy, Debug, PartialEq, Eq)]
pub enum Kind {
    /// Nothing.
    None,
    /// A swap that is taken back unless the image is confirmed.
    Test,
    /// A swap for good.
    Perm,
    /// Nothing any more: a test has swapped the images, and is to be taken back.
    Revert,
}
