//! What format 1 has less of than the format that is written now. It has the same codes, but none for a bool.
//! Cited by old.rt, old_parts.rt, old_state.rt.

/// The version of its checkpoints.
pub(crate) const OLD_VERSION: u8 = 1;

/// The most values of a tuple, and places of a template.
pub(crate) const OLD_PLACES: u8 = 8;

/// The most workers.
pub(crate) const OLD_WORKERS: u8 = 8;

/// The most neighbours of a node.
pub(crate) const OLD_PEERS: u8 = 8;
