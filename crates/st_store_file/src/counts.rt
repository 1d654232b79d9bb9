//! How much shorter a list is.

/// How many changes a list had, and how many it has.
#[derive(Clone, Copy, Debug, PartialEq, Eq)]
pub struct ListLengths {
    pub before: u64,
    pub after: u64,
}
