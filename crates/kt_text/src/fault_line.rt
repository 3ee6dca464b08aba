//! The lines of faults, read without memory.
//! Cited by draft.rt.

ghost use Rattle.std.specs.Prelude.{◌≡◌, ℕ, Some};
ghost use Rattle.kt_scenario.specs.Scene.{is_node, is_worker};
ghost use Rattle.kt_text.specs.FaultLines.{asked_by, asked_of, fault_from, fault_read};

use crate::fault::SceneError;
use crate::line::{behind, ended, node_at, number_at};
use kt_scenario::{Fault, FaultKind, MAX_STEPS};
use kt_script::Script;
use kt_tuple::NodeId;

/// What a fault line asks for, as it is spelled.
#[derive(Clone, Copy)]
pub(crate) struct Asked {
    kind: FaultKind,
    node: NodeId,
    /// `None` where the number is above the greatest int.
    after: Option<u64>,
}

/// What `NODE after N` asks for, in a line of this kind; `None` where it is spelled otherwise.
fn asked_of(kind: FaultKind, words: &[u8]) -> Option<Asked>
    ensures { result ≡ asked_of kind words.now }
{
    let (node, rest) = node_at(words)?;
    let (after, rest) = number_at(behind(rest, b" after ")?)?;
    ended(Asked { kind, node, after }, rest)
}

/// What the line asks for; `None` where no rule allows such a line.
fn asked_by(line: &[u8]) -> Option<Asked>
    ensures { result ≡ asked_by line.now }
{
    if let Some(words) = behind(line, b"fail ") {
        asked_of(FaultKind::Fail, words)
    } else if let Some(words) = behind(line, b"check ") {
        asked_of(FaultKind::Check, words)
    } else {
        None
    }
}

/// Whether there is such a worker.
fn has_worker(scripts: &[Script], node: NodeId) -> bool
    ensures { (shards : ℕ) → result ≡ is_worker (record { shards = shards; scripts = scripts.now }) node }
{
    match node {
        NodeId::Worker(0) | NodeId::Shard(_) => false,
        NodeId::Worker(number) => scripts.get(usize::from(number - 1)).is_some(),
    }
}

/// Whether there is such a node among so many shards and the workers of these scripts.
fn has_node(shards: u8, scripts: &[Script], node: NodeId) -> bool
    ensures { result ≡ is_node (record { shards = shards; scripts = scripts.now }) node }
{
    match node {
        NodeId::Worker(_) => has_worker(scripts, node),
        NodeId::Shard(number) => 1 <= number && number <= shards,
    }
}

/// The fault that is asked for, or why there is none. The number is judged before the node: a line with both wrong has
/// the lower fault, that of the limit (docs/DECISIONS.md#the-scenarios-text).
fn fault_from(shards: u8, scripts: &[Script], asked: Asked) -> Result<Fault, SceneError>
    ensures { result ≡ fault_from (record { shards = shards; scripts = scripts.now }) (Some asked) }
{
    let Asked { kind, node, after } = asked;
    match after {
        Some(after) if after <= MAX_STEPS => {
            if has_node(shards, scripts, node) {
                Ok(Fault { kind, node, after })
            } else {
                Err(SceneError::Node)
            }
        }
        _ => Err(SceneError::Limit),
    }
}

/// The fault that the line says, among so many shards and the workers of these scripts; or the lowest that is wrong
/// with the line.
pub(crate) fn fault_read(shards: u8, scripts: &[Script], line: &[u8]) -> Result<Fault, SceneError>
    ensures { result ≡ fault_read (record { shards = shards; scripts = scripts.now }) line.now }
{
    let asked = asked_by(line).ok_or(SceneError::Word)?;
    fault_from(shards, scripts, asked)
}
