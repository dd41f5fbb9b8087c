//! The entries of a journal.

use crate::input::Input;

/// How an entry's work ended.
#[derive(Clone, Copy, Debug, PartialEq, Eq)]
pub enum Mark {
    /// Nothing more was ready.
    Done,
    /// Without memory the last drain stopped early.
    Unsettled,
    /// Memory ran out, and the input did no work.
    NoMemory,
}

/// What a node did with an input: by which seat it came, how many calls were logged before its work, and how many in it.
/// From the entries before it and from these its reply can be found, so that is not kept.
#[derive(Debug, Drop)]
pub struct Entry {
    pub seat: u8,
    pub input: Input,
    pub before: u32,
    pub logged: u32,
    pub mark: Mark,
}
