//! A firing of a history with the number of its transaction.

use hem_base::Firing;

/// A firing of a history with the number of its transaction, the level of its object, 1 at the root, and whether it
/// sends a request up and waits for the answer.
#[derive(Clone, Copy, Debug, PartialEq, Eq)]
pub(crate) struct Numbered {
    pub(crate) number: usize,
    pub(crate) firing: Firing,
    pub(crate) level: u32,
    pub(crate) upward: bool,
}
