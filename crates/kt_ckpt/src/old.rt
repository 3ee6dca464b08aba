//! A checkpoint in format 1, read and written. It has no acts: they are handed to who reads it, and are not among what
//! is written. kt_sql_tables writes this format, to compare the rows of a file of version 1 with it. Reading it is
//! called by tests alone. Cited by kt_sql_tables.
//! Cited by other crates.

ghost use Rattle.std.specs.Prelude.{◌≡◌, ◌≢◌, ◌≤◌, ◌<◌, ◌++◌, ◌∷◌, [], ℕ, List, All, IfOk, IfSome, IsTrue};
ghost use Rattle.std.specs.Prelude.{◌==◌, ◌&&◌, MatchOption, OnOk, Ok, Err, false, length};
ghost use Rattle.std.specs.List.{list_all};
ghost use Rattle.kt_ckpt.specs.Acts.{IsActOf, is_act_of};
ghost use Rattle.kt_ckpt.specs.Checkpoint.{Checkpoint, HasCounts, HasShape, made_of};
ghost use Rattle.kt_ckpt.specs.Limits.{magic};
ghost use Rattle.kt_ckpt.specs.Node.{IsNode};
ghost use Rattle.kt_ckpt.specs.Old.{IsOldCheckpoint, log_at, old_checkpoint_at, old_node_at, old_node_behind};
ghost use Rattle.kt_ckpt.specs.Old.{old_peers_at, old_version_at, read_old, spelling_old};
ghost use Rattle.kt_ckpt.specs.OldLimits.{is_old, is_old_node, old_version};
ghost use Rattle.kt_ckpt.specs.Reading.{Gives};

use crate::acts::{LogAct, are_acts_of};
use crate::chain::Acts;
use crate::ckpt::Ckpt;
use crate::decode::{ckpt_of, magic_at};
use crate::encode::{push_node, push_peers, push_state};
use crate::error::CkptError;
use crate::limits::{MAGIC, SHARD, WORKER};
use crate::list::list_at;
use crate::numbers::{byte_at, byte_within, push_u64, u64_at};
use crate::old_limits::{OLD_PEERS, OLD_VERSION, OLD_WORKERS};
use crate::old_state::{is_old_state, old_state_at};
use crate::state::State;
use kt_link::Label;
use kt_tuple::{MAX_SHARDS, NodeId};
use std::alloc::{AllocError, Global};

impl Ckpt {
    ghost use Rattle.kt_ckpt.specs.declared.error.CkptError.TheVariants.{Cut, Extra, Magic, Version};

    /// The checkpoint that the bytes spell in format 1, all of the bytes, with these acts of its log; else the first
    /// fault from the left. It is `Field` at the length of the log where that is not the number of the acts, or one of
    /// them can't stand in the node's log. Want of memory aside it is exact, as `decode` is.
    pub fn decode_old(alloc: Global, bytes: &[u8], acts: Vec<LogAct>) -> Result<Ckpt, CkptError>
        // What is read is spelled so, and has these acts.
        ensures found { IfOk result (λ c. IsOldCheckpoint c × (c.acts ≡ acts.items) × (bytes.now ≡ spelling_old c)) }
        // What is spelled so is read.
        ensures only { (c : Checkpoint) → IsOldCheckpoint c → c.acts ≡ acts.items → bytes.now ≡ spelling_old c
            → Gives (λ c. c) result (Ok c) }
        // A proper front of a spelling is cut short, and a spelling with more behind it has bytes too many.
        ensures cut { (c : Checkpoint) (b : ℕ) (more : List ℕ) → IsOldCheckpoint c → c.acts ≡ acts.items
            → spelling_old c ≡ bytes.now ++ b ∷ more → Gives (λ c. c) result (Err Cut) }
        ensures extra { (c : Checkpoint) (b : ℕ) (more : List ℕ) → IsOldCheckpoint c → c.acts ≡ acts.items
            → bytes.now ≡ spelling_old c ++ b ∷ more → Gives (λ c. c) result (Err Extra) }
        // Another version is told by its name, whatever follows; so that of the format that is written now.
        ensures other_version { (v : ℕ) (more : List ℕ) → bytes.now ≡ magic ++ v ∷ more → v ≢ old_version
            → Gives (λ c. c) result (Err Version) }
        // Which fault it is.
        ensures exact { Gives (λ c. c) result (read_old acts.items bytes.now) }
    {
        decode_old(alloc, bytes, acts)
    }

    /// Its one spelling in format 1, which has no acts; `None` where that format can't hold it. It is refused only for
    /// want of memory.
    pub fn encode_old(&self, alloc: Global) -> Result<Option<Vec<u8>>, AllocError>
        ensures value { IfOk result (λ o. MatchOption o (is_old self.now ≡ false)
            (λ v. IsOldCheckpoint self.now × (v.items ≡ spelling_old self.now))) }
        // What is written is read as this checkpoint, with its acts.
        ensures read_back { IfOk result (λ o. IfSome o (λ v. read_old self.now.acts v.items ≡ Ok self.now)) }
    {
        if !is_old(self) {
            return Ok(None);
        }
        let bytes = encode_old(
            alloc,
            self.node(),
            self.line_len(),
            self.sent(),
            self.received(),
            &self.state,
            self.acts(),
        )?;
        Ok(Some(bytes))
    }
}

// ---- what format 1 can hold

fn is_old_node(node: NodeId) -> bool
    ensures { result ≡ is_old_node node }
{
    match node {
        NodeId::Worker(index) => index <= OLD_WORKERS,
        NodeId::Shard(_) => true,
    }
}

/// Whether format 1 can hold the checkpoint, its acts aside.
fn is_old(ckpt: &Ckpt) -> bool
    ensures { result ≡ is_old ckpt.now }
{
    is_old_node(ckpt.node())
        && ckpt.sent().len() <= usize::from(OLD_PEERS)
        && is_old_state(ckpt.state())
}

// ---- written

fn encode_old(
    alloc: Global,
    node: NodeId,
    line_len: u64,
    sent: &[Label],
    received: &[Label],
    state: &State,
    acts: &Acts,
) -> Result<Vec<u8>, AllocError>
    requires counts { HasCounts (made_of node line_len sent.now received.now state.now acts.now) }
    requires shape { HasShape (made_of node line_len sent.now received.now state.now acts.now) }
    requires limits { IsTrue (is_old (made_of node line_len sent.now received.now state.now acts.now)) }
    ensures value { IfOk result (λ v. v.items
        ≡ spelling_old (made_of node line_len sent.now received.now state.now acts.now)) }
    ensures held { OnOk result (IsOldCheckpoint (made_of node line_len sent.now received.now state.now acts.now)) }
{
    let mut out = Vec::new(alloc);
    push_old_front(&mut out)?;
    push_node(&mut out, node)?;
    push_u64(&mut out, line_len)?;
    push_peers(&mut out, sent, received)?;
    push_state(&mut out, state)?;
    Ok(out)
}

fn push_old_front(out: &mut Vec<u8>) -> Result<(), AllocError>
    ensures { OnOk result (out.new.items ≡ out.old.items ++ (magic ++ old_version ∷ [])) }
{
    out.extend_from_slice(&MAGIC)?;
    Ok(out.push(OLD_VERSION)?)
}

// ---- read

#[tactic(auto, unfolding(crate::specs::Old::read_old))]
fn decode_old(alloc: Global, bytes: &[u8], acts: Vec<LogAct>) -> Result<Ckpt, CkptError>
    ensures { Gives (λ c. c) result (read_old acts.items bytes.now) }
{
    let (ckpt, rest) = old_checkpoint_at(alloc, bytes, acts)?;
    if !rest.is_empty() {
        return Err(CkptError::Extra);
    }
    Ok(ckpt)
}

/// A checkpoint with these acts, and the bytes behind it.
#[tactic(auto, unfolding(crate::specs::Old::old_checkpoint_at))]
fn old_checkpoint_at(
    alloc: Global,
    bytes: &[u8],
    acts: Vec<LogAct>,
) -> Result<(Ckpt, &[u8]), CkptError>
    ensures { Gives (λ x. (x.0, x.1.now)) result (old_checkpoint_at acts.items bytes.now) }
{
    let behind_magic = magic_at(bytes)?;
    let behind_version = old_version_at(behind_magic)?;
    let (node, rest) = old_node_at(behind_version)?;
    let (line_len, rest) = log_at(&acts, node, rest)?;
    let (peers, rest) = old_peers_at(alloc, rest)?;
    let (state, rest) = old_state_at(alloc, node, rest)?;
    let ckpt = ckpt_of(alloc, node, line_len, &peers, state, acts)?;
    Ok((ckpt, rest))
}

/// The bytes behind the version; else `Cut` or `Version`.
#[tactic(auto, unfolding(crate::specs::Old::old_version_at))]
fn old_version_at(bytes: &[u8]) -> Result<&[u8], CkptError>
    ensures { Gives (λ rest. (old_version, rest.now)) result (old_version_at bytes.now) }
{
    let (read, rest) = byte_at(bytes)?;
    if read == OLD_VERSION {
        Ok(rest)
    } else {
        Err(CkptError::Version)
    }
}

#[tactic(auto, unfolding(crate::specs::Old::old_node_at))]
fn old_node_at(bytes: &[u8]) -> Result<(NodeId, &[u8]), CkptError>
    ensures value { Gives (λ x. (x.0, x.1.now)) result (old_node_at bytes.now) }
    ensures is { IfOk result (λ x. IsNode x.0) }
{
    let (kind, rest) = byte_at(bytes)?;
    old_node_behind(kind, rest)
}

fn old_node_behind(kind: u8, bytes: &[u8]) -> Result<(NodeId, &[u8]), CkptError>
    ensures value { Gives (λ x. (x.0, x.1.now)) result (old_node_behind kind bytes.now) }
    ensures is { IfOk result (λ x. IsNode x.0) }
{
    match kind {
        WORKER => {
            let (index, rest) = byte_within(1, OLD_WORKERS, bytes)?;
            Ok((NodeId::Worker(index), rest))
        }
        SHARD => {
            let (index, rest) = byte_within(1, MAX_SHARDS, bytes)?;
            Ok((NodeId::Shard(index), rest))
        }
        _ => Err(CkptError::Field),
    }
}

/// Whether the acts are as many as the log is long, and each may stand in the node's log.
fn are_of_log(acts: &[LogAct], node: NodeId, line_len: u64) -> bool
    ensures value { result ≡ (length acts.now == line_len && list_all (is_act_of node) acts.now) }
    ensures long { IsTrue result → length acts.now ≡ line_len }
    ensures shape { IsTrue result → All (IsActOf node) acts.now }
{
    acts.len() as u64 == line_len && are_acts_of(node, acts)
}

/// The length of the node's log, by which the acts are judged.
#[tactic(auto, unfolding(crate::specs::Old::log_at))]
fn log_at<'a>(acts: &[LogAct], node: NodeId, bytes: &'a [u8]) -> Result<(u64, &'a [u8]), CkptError>
    ensures value { Gives (λ x. (x.0, x.1.now)) result (log_at acts.now node bytes.now) }
    ensures long { IfOk result (λ x. length acts.now ≡ x.0) }
    ensures shape { IfOk result (λ x. All (IsActOf node) acts.now) }
{
    let (line_len, rest) = u64_at(bytes)?;
    if are_of_log(acts, node, line_len) {
        Ok((line_len, rest))
    } else {
        Err(CkptError::Field)
    }
}

#[tactic(auto, unfolding(crate::specs::Old::old_peers_at))]
fn old_peers_at(alloc: Global, bytes: &[u8]) -> Result<(Vec<(Label, Label)>, &[u8]), CkptError>
    ensures value { Gives (λ x. (x.0.items, x.1.now)) result (old_peers_at bytes.now) }
    ensures few { IfOk result (λ x. (1 ≤ length x.0.items) × (length x.0.items ≤ OLD_PEERS)) }
{
    let (count, rest) = byte_within(1, OLD_PEERS, bytes)?;
    list_at(alloc, u32::from(count), rest)
}
