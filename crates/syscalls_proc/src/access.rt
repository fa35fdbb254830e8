//! What a shared access answers.

/// What `shared_access` answers.
#[derive(Clone, Copy, Debug, PartialEq, Eq)]
pub enum Access {
    /// The step is done.
    Stepped,
    /// The process is to end with this wait status. Nothing has changed.
    Trap { code: u32 },
}
