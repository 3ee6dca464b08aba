//! A checkpoint, read.
//! Cited by old.rt; other crates.

ghost use Rattle.std.specs.Prelude.{◌≡◌, ◌≢◌, All, ℕ, ◌<◌, ◌≤◌, List, ◌∷◌, ◌++◌, IfOk, Ok, Err, length, map, take};
ghost use Rattle.kt_ckpt.specs.Acts.{IsActOf};
ghost use Rattle.kt_ckpt.specs.Checkpoint.{Checkpoint, IsCheckpoint, HasCounts, IsCountedState, Suits};
ghost use Rattle.kt_ckpt.specs.Checkpoint.{spelling, read, magic_at, version_at};
ghost use Rattle.kt_ckpt.specs.Checkpoint.{label_at, peer_at, peers_at, state_at, checkpoint_of, checkpoint_at};
ghost use Rattle.kt_ckpt.specs.Limits.{magic, version};
ghost use Rattle.kt_ckpt.specs.Header.{fields_of, header_at};
ghost use Rattle.kt_ckpt.specs.Node.{IsNode, node_behind, node_at};
ghost use Rattle.kt_ckpt.specs.Reading.{Gives};

use crate::act_bytes::acts_at;
use crate::acts::LogAct;
use crate::chain::Acts;
use crate::ckpt::Ckpt;
use crate::error::CkptError;
use crate::header::CkptHeader;
use crate::limits::{MAGIC, MAX_PEERS, SHARD, VERSION, WORKER};
use crate::list::{Listed, list_at};
use crate::numbers::{byte_at, byte_within, bytes_at, u64_at};
use crate::shard::shard_at;
use crate::state::State;
use crate::worker::worker_at;
use kt_link::Label;
use kt_tuple::{MAX_SHARDS, MAX_WORKERS, NodeId};
use std::alloc::{AllocError, Global};

impl Ckpt {
    ghost use Rattle.kt_ckpt.specs.declared.error.CkptError.TheVariants.{Cut, Extra, Magic, Version};

    /// The checkpoint that the bytes spell, all of the bytes; else the first fault from the left. Want of memory aside,
    /// `decode` is exact. Memory may run out before a fault further right is met.
    pub fn decode(alloc: Global, bytes: &[u8]) -> Result<Ckpt, CkptError>
        // What is read is spelled so.
        ensures found { IfOk result (λ c. IsCheckpoint c × (bytes.now ≡ spelling c)) }
        // What is spelled so is read.
        ensures only { (c : Checkpoint) → IsCheckpoint c → bytes.now ≡ spelling c → Gives (λ c. c) result (Ok c) }
        // A proper front of a spelling is cut short, and a spelling with more behind it has bytes too many.
        ensures cut { (c : Checkpoint) (b : ℕ) (more : List ℕ)
            → IsCheckpoint c → spelling c ≡ bytes.now ++ b ∷ more → Gives (λ c. c) result (Err Cut) }
        ensures extra { (c : Checkpoint) (b : ℕ) (more : List ℕ)
            → IsCheckpoint c → bytes.now ≡ spelling c ++ b ∷ more → Gives (λ c. c) result (Err Extra) }
        // What is too short for the magic bytes is cut short; other bytes in their place, and another version behind
        // them, are told by their names, whatever follows.
        ensures short { length bytes.now < 4 → Gives (λ c. c) result (Err Cut) }
        ensures other_magic { 4 ≤ length bytes.now → take 4 bytes.now ≢ magic → Gives (λ c. c) result (Err Magic) }
        ensures other_version { (v : ℕ) (more : List ℕ) → bytes.now ≡ magic ++ v ∷ more → v ≢ version
            → Gives (λ c. c) result (Err Version) }
        // Which fault it is.
        ensures exact { Gives (λ c. c) result (read bytes.now) }
    {
        decode(alloc, bytes)
    }
}

impl CkptHeader {
    ghost use Rattle.kt_ckpt.specs.Header.{header_of};

    /// The header of the checkpoint that the bytes spell. What stands behind it is not read: whether all bytes spell a
    /// checkpoint only `Ckpt::decode` tells. The faults are those of the header, the first from the left, as there.
    pub fn decode(alloc: Global, bytes: &[u8]) -> Result<CkptHeader, CkptError>
        ensures of_checkpoint { (c : Checkpoint) → IsCheckpoint c → bytes.now ≡ spelling c
            → Gives (λ m. m) result (Ok (header_of c)) }
        // Which fault it is.
        ensures exact { Gives (λ m. m) result (header_at bytes.now) }
    {
        decode_header(alloc, bytes)
    }
}

#[tactic(auto, unfolding(crate::specs::Header::header_at))]
fn decode_header(alloc: Global, bytes: &[u8]) -> Result<CkptHeader, CkptError>
    ensures { Gives (λ m. m) result (header_at bytes.now) }
{
    let behind_magic = magic_at(bytes)?;
    let behind_version = version_at(behind_magic)?;
    let (node, rest) = node_at(behind_version)?;
    let (line_len, rest) = u64_at(rest)?;
    let (peers, _) = peers_at(alloc, rest)?;
    Ok(header_of(alloc, node, line_len, &peers)?)
}

/// The header with these labels sent to the neighbours, and received from them.
fn header_of(
    alloc: Global,
    node: NodeId,
    line_len: u64,
    peers: &[(Label, Label)],
) -> Result<CkptHeader, AllocError>
    ensures { IfOk result (λ m. m ≡ fields_of node line_len (map (λ p. p.0) peers.now) (map (λ p. p.1) peers.now)) }
{
    CkptHeader::new(
        alloc,
        node,
        line_len,
        sent_of(alloc, peers)?,
        received_of(alloc, peers)?,
    )
}

#[tactic(auto, unfolding(crate::specs::Checkpoint::read))]
fn decode(alloc: Global, bytes: &[u8]) -> Result<Ckpt, CkptError>
    ensures { Gives (λ c. c) result (read bytes.now) }
{
    let (ckpt, rest) = checkpoint_at(alloc, bytes)?;
    if !rest.is_empty() {
        return Err(CkptError::Extra);
    }
    Ok(ckpt)
}

/// A checkpoint, and the bytes behind it.
#[tactic(auto, unfolding(crate::specs::Checkpoint::checkpoint_at))]
fn checkpoint_at(alloc: Global, bytes: &[u8]) -> Result<(Ckpt, &[u8]), CkptError>
    ensures { Gives (λ x. (x.0, x.1.now)) result (checkpoint_at bytes.now) }
{
    let behind_magic = magic_at(bytes)?;
    let behind_version = version_at(behind_magic)?;
    let (node, rest) = node_at(behind_version)?;
    let (line_len, rest) = u64_at(rest)?;
    let (peers, rest) = peers_at(alloc, rest)?;
    let (state, rest) = state_at(alloc, node, rest)?;
    let (acts, rest) = acts_at(alloc, node, line_len, rest)?;
    let ckpt = ckpt_of(alloc, node, line_len, &peers, state, acts)?;
    Ok((ckpt, rest))
}

/// The checkpoint with these labels sent to its neighbours, and received from them.
#[tactic(auto, using(crate::proofs::Peers::counted_peers))]
pub(crate) fn ckpt_of(
    alloc: Global,
    node: NodeId,
    line_len: u64,
    peers: &[(Label, Label)],
    state: State,
    acts: Vec<LogAct>,
) -> Result<Ckpt, AllocError>
    requires node { IsNode node }
    requires few { (1 ≤ length peers.now) × (length peers.now ≤ MAX_PEERS) }
    requires suits { Suits node state }
    requires counted { IsCountedState state }
    requires long { length acts.items ≡ line_len }
    requires shape { All (IsActOf node) acts.items }
    ensures { IfOk result (λ c. c ≡ checkpoint_of node line_len peers.now state acts.items) }
{
    let sent = sent_of(alloc, peers)?;
    let received = received_of(alloc, peers)?;
    let acts = Acts::none().with(alloc, acts)?;
    Ckpt::new(alloc, node, line_len, sent, received, state, acts)
}

fn sent_of(alloc: Global, peers: &[(Label, Label)]) -> Result<Vec<Label>, AllocError>
    ensures { IfOk result (λ v. v.items ≡ map (λ p. p.0) peers.now) }
{
    peers.iter().map(|peer| peer.0).collect(alloc)
}

fn received_of(alloc: Global, peers: &[(Label, Label)]) -> Result<Vec<Label>, AllocError>
    ensures { IfOk result (λ v. v.items ≡ map (λ p. p.1) peers.now) }
{
    peers.iter().map(|peer| peer.1).collect(alloc)
}

/// The bytes behind the magic ones; else `Cut` or `Magic`.
#[tactic(auto, unfolding(crate::specs::Checkpoint::magic_at))]
pub(crate) fn magic_at(bytes: &[u8]) -> Result<&[u8], CkptError>
    ensures { Gives (λ rest. (magic, rest.now)) result (magic_at bytes.now) }
{
    // The four magic bytes are one field: how many there are is judged before what they are.
    let (front, rest) = bytes_at(MAGIC.len(), bytes)?;
    if front == MAGIC.as_slice() {
        Ok(rest)
    } else {
        Err(CkptError::Magic)
    }
}

/// The bytes behind the version; else `Cut` or `Version`.
#[tactic(auto, unfolding(crate::specs::Checkpoint::version_at))]
fn version_at(bytes: &[u8]) -> Result<&[u8], CkptError>
    ensures { Gives (λ rest. (version, rest.now)) result (version_at bytes.now) }
{
    let (read, rest) = byte_at(bytes)?;
    if read == VERSION {
        Ok(rest)
    } else {
        Err(CkptError::Version)
    }
}

#[tactic(auto, unfolding(crate::specs::Node::node_at))]
fn node_at(bytes: &[u8]) -> Result<(NodeId, &[u8]), CkptError>
    ensures value { Gives (λ x. (x.0, x.1.now)) result (node_at bytes.now) }
    ensures is { IfOk result (λ x. IsNode x.0) }
{
    let (kind, rest) = byte_at(bytes)?;
    node_behind(kind, rest)
}

fn node_behind(kind: u8, bytes: &[u8]) -> Result<(NodeId, &[u8]), CkptError>
    ensures value { Gives (λ x. (x.0, x.1.now)) result (node_behind kind bytes.now) }
    ensures is { IfOk result (λ x. IsNode x.0) }
{
    match kind {
        WORKER => {
            let (index, rest) = byte_within(1, MAX_WORKERS, bytes)?;
            Ok((NodeId::Worker(index), rest))
        }
        SHARD => {
            let (index, rest) = byte_within(1, MAX_SHARDS, bytes)?;
            Ok((NodeId::Shard(index), rest))
        }
        _ => Err(CkptError::Field),
    }
}

#[tactic(auto, unfolding(crate::specs::Checkpoint::label_at))]
fn label_at(bytes: &[u8]) -> Result<(Label, &[u8]), CkptError>
    ensures { Gives (λ x. (x.0, x.1.now)) result (label_at bytes.now) }
{
    let (incarnation, rest) = u64_at(bytes)?;
    let (count, rest) = u64_at(rest)?;
    Ok((Label { incarnation, count }, rest))
}

#[tactic(auto, unfolding(crate::specs::Checkpoint::peer_at))]
fn peer_at(bytes: &[u8]) -> Result<((Label, Label), &[u8]), CkptError>
    ensures { Gives (λ x. (x.0, x.1.now)) result (peer_at bytes.now) }
{
    let (sent, rest) = label_at(bytes)?;
    let (received, rest) = label_at(rest)?;
    Ok(((sent, received), rest))
}

impl Listed for (Label, Label) {
    ghost use Rattle.kt_ckpt.specs.Checkpoint.{peer_at};

    ghost reader = { peer_at };

    fn read(_alloc: Global, bytes: &[u8]) -> Result<((Label, Label), &[u8]), CkptError> {
        peer_at(bytes)
    }
}

#[tactic(auto, unfolding(crate::specs::Checkpoint::peers_at))]
fn peers_at(alloc: Global, bytes: &[u8]) -> Result<(Vec<(Label, Label)>, &[u8]), CkptError>
    ensures value { Gives (λ x. (x.0.items, x.1.now)) result (peers_at bytes.now) }
    ensures few { IfOk result (λ x. (1 ≤ length x.0.items) × (length x.0.items ≤ MAX_PEERS)) }
{
    let (count, rest) = byte_within(1, MAX_PEERS, bytes)?;
    list_at(alloc, u32::from(count), rest)
}

/// The state of this node, of its kind, and the bytes behind it.
#[tactic(auto, unfolding(crate::specs::Checkpoint::state_at))]
fn state_at(alloc: Global, node: NodeId, bytes: &[u8]) -> Result<(State, &[u8]), CkptError>
    ensures value { Gives (λ x. (x.0, x.1.now)) result (state_at node bytes.now) }
    ensures suits { IfOk result (λ x. Suits node x.0) }
    ensures counted { IfOk result (λ x. IsCountedState x.0) }
{
    match node {
        NodeId::Worker(_) => {
            let (worker, rest) = worker_at(alloc, bytes)?;
            Ok((State::Worker(worker), rest))
        }
        NodeId::Shard(_) => {
            let (shard, rest) = shard_at(alloc, bytes)?;
            Ok((State::Shard(shard), rest))
        }
    }
}
