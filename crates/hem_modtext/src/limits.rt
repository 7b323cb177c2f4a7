//! The limits on the text of modules.

/// The greatest number of an object, of a child and of a message.
pub(crate) const MOST_ID: u64 = 4_294_967_295;

/// The greatest of all other numbers.
pub(crate) const MOST_NUMBER: u64 = 18_446_744_073_709_551_615;

/// How many bytes a name may have.
pub(crate) const MOST_BYTES: usize = 32;
