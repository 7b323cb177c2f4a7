//! The limits on a history.

/// How many firings a history may have.
pub(crate) const MOST_FIRINGS: usize = 1_000_000;

/// The greatest number in a history.
pub(crate) const MOST_NUMBER: u64 = 4_294_967_295;
