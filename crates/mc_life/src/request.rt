//! What a running image asks of the boot loader.

/// What a running image asks of the boot loader.
#[derive(Clone, Copy, Debug, PartialEq, Eq)]
pub enum Request {
    /// The secondary's image is to run once, on trial.
    Test,
    /// It is to run for good.
    Perm,
}
