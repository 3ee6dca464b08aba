//! The codes of the format, each once, and the limit of neighbours. The other limits are those of tuples, scripts and
//! nodes.
//! Cited by act_bytes.rt, decode.rt, encode.rt, old.rt, old_parts.rt, op.rt, value.rt; other crates.

use kt_tuple::MAX_WORKERS;

/// The bytes that each checkpoint begins with.
pub(crate) const MAGIC: [u8; 4] = *b"KTCP";

/// The version that is written and read.
pub(crate) const VERSION: u8 = 2;

/// The most neighbours of a node: the shards of a worker, who are no more than the workers can be, or the workers of a
/// shard.
pub const MAX_PEERS: u8 = MAX_WORKERS;

/// The code of a worker's checkpoint.
pub(crate) const WORKER: u8 = 1;
/// The code of a shard's checkpoint.
pub(crate) const SHARD: u8 = 2;

/// The code of an int: eight bytes follow.
pub(crate) const INT: u8 = 1;
/// The code of a str: its length in one byte and its characters follow.
pub(crate) const STR: u8 = 2;
/// The code of a bool: one byte follows, 0 for `false` and 1 for `true`.
pub(crate) const BOOL: u8 = 3;
/// The code of `?int` in a template: nothing follows.
pub(crate) const INT_FORMAL: u8 = 0x81;
/// The code of `?str` in a template: nothing follows.
pub(crate) const STR_FORMAL: u8 = 0x82;
/// The code of `?bool` in a template: nothing follows.
pub(crate) const BOOL_FORMAL: u8 = 0x83;

/// The code of `out`: a tuple follows.
pub(crate) const OUT: u8 = 1;
/// The code of `in`: a template follows.
pub(crate) const IN: u8 = 2;
/// The code of `rd`: a template follows.
pub(crate) const RD: u8 = 3;
/// The code of `inp`: a template follows.
pub(crate) const INP: u8 = 4;
/// The code of `rdp`: a template follows.
pub(crate) const RDP: u8 = 5;

/// The code of the answer to `out`: nothing follows.
pub(crate) const DONE: u8 = 0;
/// The code of the answer with a tuple, which follows.
pub(crate) const GOT: u8 = 1;
/// The code of the answer that no tuple matched: nothing follows.
pub(crate) const NONE: u8 = 2;

/// The code of a worker's first request.
pub(crate) const ISSUE: u8 = 1;
/// The code of a worker's request that is sent once more.
pub(crate) const REPEAT: u8 = 2;
/// The code of a request that a shard heard.
pub(crate) const HEARD: u8 = 3;
/// The code of a service: the answer follows.
pub(crate) const SERVED: u8 = 4;
/// The code of a cached answer that a shard sent again, which follows.
pub(crate) const AGAIN: u8 = 5;
/// The code of an answer that a worker accepted, which follows.
pub(crate) const ACCEPTED: u8 = 6;
/// The code of a message that was ignored: at a worker the answer in it follows.
pub(crate) const IGNORED: u8 = 7;
