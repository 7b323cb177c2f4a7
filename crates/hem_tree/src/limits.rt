//! The limits on a tree.

/// How many objects a tree may have.
pub(crate) const MOST_OBJECTS: usize = 64;

/// How many children an object may have.
pub(crate) const MOST_CHILDREN: usize = 8;

/// How many levels a tree may have. The root is level 1.
pub(crate) const MOST_LEVELS: u32 = 8;
