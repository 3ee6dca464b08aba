//! Ballots: whom a node asked, and the votes that came.
//! Cited by other crates.

ghost use Rattle.std.specs.Prelude.{◌≡◌, ◌↔◌, ◌∷◌, ◌++◌, [], if◌then◌else◌, List, All, Any, Contains, filter, not};
ghost use Rattle.std.specs.Prelude.{None, Some, true, false, IsTrue, IsSome, IfOk, OnOk, OnErr};
ghost use Rattle.kt_tuple.specs.declared.node.NodeId.{NodeId};
ghost use Rattle.kt_tuple.specs.Node.{node_eq};

use crate::asker::Asker;
use crate::vote::Vote;
use kt_tuple::NodeId;
use std::alloc::{AllocError, Global};
use std::marker::Model;

/// What a node keeps of an instance in which it votes: whom it asked, who of these has voted, and how.
#[derive(Debug, Drop)]
pub struct Ballot {
    /// The number of the check or rollback.
    instance: u64,
    /// The incarnation in which its node asks.
    incarnation: u64,
    /// Who asked the node itself; `None` where it began the instance.
    parent: Option<Asker>,
    /// Whom it asked, in node order.
    asked: Vec<NodeId>,
    /// Those of them that have not voted.
    awaited: Vec<NodeId>,
    /// Whether one of them said no. It stays: a vote that comes after a no is counted all the same.
    refused: bool,
    /// Whether the node itself has voted.
    voted: bool,
}

impl Model for Ballot {
    ghost use Rattle.kt_vote.specs.auxiliary.Asked.{AreAsked};
    ghost use Rattle.kt_vote.specs.Poll.{Poll};

    ghost Value = { Poll };

    ghost view = { λ b. record {
      instance = b.instance;
      incarnation = b.incarnation;
      parent = b.parent;
      asked = b.asked.items;
      awaited = b.awaited.items;
      refused = b.refused;
      voted = b.voted;
    } };

    ghost invariant = { λ b. AreAsked b.asked.items b.awaited.items };
}

impl Ballot {
    ghost use Rattle.kt_vote.specs.declared.vote.Vote.{Vote};
    ghost use Rattle.kt_vote.specs.Order.{IsBefore, IsInOrder};
    ghost use Rattle.kt_vote.specs.Poll.{Counts, asked_too, asking_poll, counted};
    ghost use Rattle.kt_vote.specs.Poll.{counts, is_awaited, opening_poll, outcome_of};
    ghost use Rattle.kt_vote.specs.Counting.{IsAfter, said};

    /// A ballot in this instance of a node in this incarnation, which nobody is asked for yet. The parent is who
    /// asked for it; where there is none, its node began the instance.
    pub fn new(alloc: Global, instance: u64, incarnation: u64, parent: Option<Asker>) -> Ballot
        ensures value { result ≡ opening_poll instance incarnation parent }
        ensures after { IsAfter [] result }
    {
        Ballot {
            instance,
            incarnation,
            parent,
            asked: Vec::new(alloc),
            awaited: Vec::new(alloc),
            refused: false,
            voted: false,
        }
    }

    /// A ballot in this instance of a node in this incarnation, which asks these nodes, in node order, and has
    /// counted no vote.
    pub fn asking(
        alloc: Global,
        instance: u64,
        incarnation: u64,
        parent: Option<Asker>,
        asked: Vec<NodeId>,
    ) -> Result<Ballot, AllocError>
        requires { IsInOrder asked.items }
        ensures value { IfOk result (λ b. b ≡ asking_poll instance incarnation parent asked.items) }
        ensures after { IfOk result (λ b. IsAfter [] b) }
    {
        let awaited = Vec::from_slice(alloc, &asked)?;
        Ok(Ballot {
            instance,
            incarnation,
            parent,
            asked,
            awaited,
            refused: false,
            voted: false,
        })
    }

    /// An equal ballot with memory of its own.
    pub fn copy(&self, alloc: Global) -> Result<Ballot, AllocError>
        ensures { IfOk result (λ b. b ≡ self.now) }
    {
        Ok(Ballot {
            instance: self.instance,
            incarnation: self.incarnation,
            parent: self.parent,
            asked: Vec::from_slice(alloc, &self.asked)?,
            awaited: Vec::from_slice(alloc, &self.awaited)?,
            refused: self.refused,
            voted: self.voted,
        })
    }

    /// The number of the check or rollback in which it is a ballot.
    pub fn instance(&self) -> u64
        ensures { result ≡ self.now.instance }
    {
        self.instance
    }

    /// The incarnation in which the node asks. A vote that comes to it repeats it.
    pub fn incarnation(&self) -> u64
        ensures { result ≡ self.now.incarnation }
    {
        self.incarnation
    }

    /// Who asked the node itself, and in which incarnation, unless it began the instance. The node's own vote
    /// repeats that incarnation.
    pub fn parent(&self) -> Option<Asker>
        ensures { result ≡ self.now.parent }
    {
        self.parent
    }

    /// The nodes that were asked, in node order.
    pub fn asked(&self) -> &[NodeId]
        ensures value { result.now ≡ self.now.asked }
        ensures in_order { IsInOrder self.now.asked }
    {
        &self.asked
    }

    /// Whether the node was asked and has not voted.
    pub fn awaits(&self, node: NodeId) -> bool
        ensures awaited { IsTrue result ↔ Contains self.now.awaited node }
        ensures exact { result ≡ is_awaited self.now node }
        ensures asked { IsTrue result → Contains self.now.asked node }
    {
        self.awaited.contains(&node)
    }

    /// Whether every node that was asked has voted.
    pub fn complete(&self) -> bool
        ensures awaited { IsTrue result ↔ (self.now.awaited ≡ []) }
        ensures voted { (votes : List (NodeId × Vote)) → IsAfter votes self.now
            → IsTrue result ↔ All (λ x. IsSome (said self.now votes x)) self.now.asked }
    {
        self.awaited.is_empty()
    }

    /// Whether a node that was asked said no.
    pub fn refused(&self) -> bool
        ensures value { result ≡ self.now.refused }
        ensures said { (votes : List (NodeId × Vote)) → IsAfter votes self.now
            → IsTrue result ↔ Any (λ x. said self.now votes x ≡ Some false) self.now.asked }
    {
        self.refused
    }

    /// What the votes come to: no as soon as one said no, yes where all said yes, and `None` before that. Where nobody
    /// was asked it is yes.
    pub fn outcome(&self) -> Option<bool>
        ensures { result ≡ outcome_of self.now }
    {
        if self.refused {
            Some(false)
        } else if self.complete() {
            Some(true)
        } else {
            None
        }
    }

    /// Whether the node itself has voted: `mark_voted` was called.
    pub fn has_voted(&self) -> bool
        ensures { result ≡ self.now.voted }
    {
        self.voted
    }

    /// Asks one node more, which comes after all those that were asked. So none is asked twice, and `asked` lends them
    /// in the order in which verdicts are sent. Where memory runs out nothing changes.
    pub fn ask(&mut self, node: NodeId) -> Result<(), AllocError>
        requires { All (λ x. IsBefore x node) self.old.asked }
        ensures asked { OnOk result (self.new ≡ asked_too node self.old) }
        ensures unchanged { OnErr result (self.new ≡ self.old) }

        // It awaits the node's vote: what the node said before it was asked is not counted.
        ensures after { (votes : List (NodeId × Vote)) → IsAfter votes self.old → said self.old votes node ≡ None
            → OnOk result (IsAfter votes self.new) }
    {
        self.asked.reserve(1)?;
        self.awaited.reserve(1)?;
        self.asked.push_reserved(node);
        self.awaited.push_reserved(node);
        Ok(())
    }

    /// Whether the vote is counted: of this instance, on an ask of this incarnation, and of a node that is awaited.
    fn counts(&self, from: NodeId, vote: Vote) -> bool
        ensures meaning { IsTrue result ↔ Counts self.now from vote }
        ensures exact { result ≡ counts self.now from vote }
    {
        vote.instance == self.instance && vote.incarnation == self.incarnation && self.awaits(from)
    }

    /// Counts a vote that came from a node, and says whether it did. One of another instance, on an ask of another
    /// incarnation, or of a node that is not awaited changes nothing.
    pub fn count_vote(&mut self, from: NodeId, vote: Vote) -> bool
        ensures counts { IsTrue result ↔ Counts self.old from vote }
        ensures exact { result ≡ counts self.old from vote }
        ensures counted { self.new ≡ (if result then counted self.old from vote.yes else self.old) }
        ensures after { (votes : List (NodeId × Vote)) → IsAfter votes self.old
            → IsAfter (votes ++ (from, vote) ∷ []) self.new }
    {
        if !self.counts(from, vote) {
            return false;
        }
        self.count(from, vote.yes);
        true
    }

    /// The node has voted so: it is awaited no more, and a no is remembered.
    fn count(&mut self, from: NodeId, yes: bool)
        ensures { self.new ≡ counted self.old from yes }
    {
        strike(&mut self.awaited, from);
        self.refused = self.refused || !yes;
    }

    /// The node itself has voted now. Which votes came, and what they come to, stays.
    pub fn mark_voted(&mut self)
        ensures voted { self.new ≡ record self.old { voted = true } }
        ensures after { (votes : List (NodeId × Vote)) → IsAfter votes self.old → IsAfter votes self.new }
    {
        self.voted = true;
    }
}

/// Takes the node off the list.
fn strike(nodes: &mut Vec<NodeId>, node: NodeId)
    ensures { nodes.new.items ≡ filter (λ x. not (node_eq x node)) nodes.old.items }
{
    nodes.retain(|other| *other != node);
}
