//! Firings with the numbers of their transactions.

use hem_base::Firing;

/// A firing as a member of its transaction, which goes by its number.
#[derive(Clone, Copy, Debug, PartialEq, Eq)]
pub(crate) struct Member {
    pub(crate) number: usize,
    pub(crate) firing: Firing,
}
