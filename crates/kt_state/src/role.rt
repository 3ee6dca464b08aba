//! Who a node is.
//! Cited by loading.rt, saving.rt, stored.rt; other crates.

use kt_script::Script;
use kt_tuple::NodeId;

/// Who a node is, which the scene says.
#[derive(Clone, Copy, Debug)]
pub struct Role<'a> {
    /// Its name: worker or shard, and its number.
    pub id: NodeId,
    /// How many neighbours it has, from 1 to `MAX_PEERS`.
    pub peers: u8,
    /// A worker's script; a shard's has no command.
    pub script: &'a Script,
}
