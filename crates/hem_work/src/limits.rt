//! The limits on a work.

/// How many lines a work may have. It has at least one.
pub(crate) const MOST_LINES: u32 = 16;

/// How many firings of self rules each object may make on each line.
pub(crate) const MOST_SELF: u32 = 1_000;

/// How many requests a work may have.
pub(crate) const MOST_REQUESTS: usize = 100_000;

/// How many transactions a work may start: one for each request, and one for each firing of a self rule.
pub(crate) const MOST_STARTS: u64 = 200_000;

/// The greatest number of a line or an object, and the greatest counts that a text may give.
pub(crate) const MOST_NUMBER: u64 = 4_294_967_295;

/// The greatest value of a request.
pub(crate) const MOST_VALUE: u64 = 18_446_744_073_709_551_615;
