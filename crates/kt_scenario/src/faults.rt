//! Fault lines: which nodes shall fail, or begin a check, and when.
//! Cited by other crates.

ghost use Rattle.std.specs.Prelude.{◌≡◌, ◌==◌, ◌&&◌, ◌∷◌, ◌++◌, ℕ, List, [], length, position};
ghost use Rattle.std.specs.Prelude.{IfOk, IfSome, OnErr, OnOk};
ghost use Rattle.kt_scenario.specs.Faults.{is_due, is_due_line, is_kind, is_open, least, lesser, mark_at, open_afters};
ghost use Rattle.kt_scenario.specs.Faults.{place_spent, spent, step_of};

use crate::step::Step;
use kt_tuple::NodeId;
use std::alloc::{AllocError, Global};
use std::marker::Model;

/// What a fault line asks for.
#[derive(Clone, Copy, Debug, PartialEq, Eq)]
pub enum FaultKind {
    /// The node shall fail.
    Fail,
    /// The node shall begin a check.
    Check,
}

/// A fault line: what the node shall do once it has made so many steps of its own.
#[derive(Clone, Copy, Debug, PartialEq, Eq)]
pub struct Fault {
    /// What the node shall do: fail, or begin a check.
    pub kind: FaultKind,
    /// The node that shall do it; it alone spends the line.
    pub node: NodeId,
    /// How many steps of its own it makes first; a scenario says at most `MAX_STEPS`.
    pub after: u64,
}

impl Fault {
    /// The step that it asks for: the node's failure, or its check.
    pub fn step(self) -> Step
        ensures { result ≡ step_of self }
    {
        let node = self.node;
        match self.kind {
            FaultKind::Fail => Step::Fail { node },
            FaultKind::Check => Step::Check { node },
        }
    }
}

/// A fault line, and whether a step has spent it.
#[derive(Clone, Copy, Debug, PartialEq, Eq)]
pub struct FaultLine {
    /// What it asks for, of which node, and when.
    pub fault: Fault,
    /// Whether a step has spent it.
    pub is_marked: bool,
}

/// Whether the two are one.
fn is_kind(a: FaultKind, b: FaultKind) -> bool
    ensures { result ≡ is_kind a b }
{
    match (a, b) {
        (FaultKind::Fail, FaultKind::Fail) | (FaultKind::Check, FaultKind::Check) => true,
        _ => false,
    }
}

impl FaultLine {
    /// Whether it is of this kind and node, and not marked.
    fn is_open(&self, kind: FaultKind, node: NodeId) -> bool
        ensures { result ≡ is_open kind node self.now }
    {
        is_kind(self.fault.kind, kind) && self.fault.node == node && !self.is_marked
    }

    /// Whether it is due besides, for a node that has made so many steps of its own.
    fn is_due(&self, kind: FaultKind, node: NodeId, own: u64) -> bool
        ensures { result ≡ is_due_line kind node own self.now }
    {
        self.is_open(kind, node) && self.fault.after <= own
    }
}

/// The lesser of both, where there are two.
fn lesser(least: Option<u64>, number: u64) -> Option<u64>
    ensures { result ≡ lesser least number }
{
    match least {
        None => Some(number),
        Some(least) => Some(least.min(number)),
    }
}

/// The fault lines of a scenario in its order, and which of them were spent.
#[derive(Debug, Drop)]
pub struct Faults {
    lines: Vec<FaultLine>,
}

impl Model for Faults {
    ghost use Rattle.kt_scenario.specs.declared.faults.FaultLine.{FaultLine};
    ghost use Rattle.std.specs.Prelude.{List};

    ghost Value = { List FaultLine };

    ghost view = { λ f. f.lines.items };
}

impl Faults {
    ghost use Rattle.std.specs.Prelude.{false};

    /// A list without lines. It takes no memory.
    pub fn new(alloc: Global) -> Faults
        ensures { result ≡ [] }
    {
        Faults {
            lines: Vec::new(alloc),
        }
    }

    /// The lines in the scenario's order, the spent ones too.
    pub fn lines(&self) -> &[FaultLine]
        ensures { result.now ≡ self.now }
    {
        &self.lines
    }

    /// An equal list, marks too, with memory of its own; refused only for want of memory.
    pub fn copy(&self, alloc: Global) -> Result<Faults, AllocError>
        ensures { IfOk result (λ f. f ≡ self.now) }
    {
        Ok(Faults {
            lines: Vec::from_slice(alloc, &self.lines)?,
        })
    }

    /// One line more behind the others, which is not marked. Where memory runs out nothing changes.
    pub fn push(&mut self, fault: Fault) -> Result<(), AllocError>
        ensures added { OnOk result (self.new ≡ self.old ++ record { fault = fault; is_marked = false } ∷ []) }
        ensures unchanged { OnErr result (self.new ≡ self.old) }
    {
        self.lines.reserve(1)?;
        self.lines.push_reserved(FaultLine {
            fault,
            is_marked: false,
        });
        Ok(())
    }

    /// Whether a line of this kind is due for the node, which has made so many steps of its own. It takes no memory.
    pub fn is_due(&self, kind: FaultKind, node: NodeId, own: u64) -> bool
        ensures { result ≡ is_due kind node own self.now }
    {
        self.lines.iter().any(|line| line.is_due(kind, node, own))
    }

    /// The least number of steps in a line of this kind and node that is not marked.
    fn least_after(&self, kind: FaultKind, node: NodeId) -> Option<u64>
        ensures { result ≡ least (open_afters kind node self.now) }
    {
        let mut least = None;
        for line in &self.lines {
            if line.is_open(kind, node) {
                least = lesser(least, line.fault.after);
            }
        }
        least
    }

    /// The place of the first line of this kind and node that is not marked and has this number of steps.
    fn place_of(&self, kind: FaultKind, node: NodeId, after: u64) -> Option<usize>
        ensures value { result ≡ position (λ line. is_open kind node line && (line.fault.after == after)) self.now }
    {
        self.lines.iter().position(|line| line.is_open(kind, node) && line.fault.after == after)
    }

    /// Marks the line of this kind and node that is spent next, if there is one.
    fn mark(&mut self, kind: FaultKind, node: NodeId)
        ensures { self.new ≡ mark_at self.old (place_spent kind node self.old) }
    {
        let Some(after) = self.least_after(kind, node) else {
            return;
        };
        let Some(place) = self.place_of(kind, node, after) else {
            return;
        };
        if let Some(line) = self.lines.get_mut(place) {
            line.is_marked = true;
        }
    }

    /// The step was made: a failure or a check marks the line of its kind and node that has the least number of steps
    /// of those not marked, and of equal ones the first. Any other step marks none. It takes no memory.
    pub fn spend(&mut self, step: &Step)
        ensures { self.new ≡ spent self.old step.now }
    {
        match step {
            Step::Fail { node } => self.mark(FaultKind::Fail, *node),
            Step::Check { node } => self.mark(FaultKind::Check, *node),
            _ => {}
        }
    }
}
