//! The acts of a log, shared.
//! Cited by act_bytes.rt, acts.rt, ckpt.rt, decode.rt, encode.rt, old.rt, past.rt; other crates.

ghost use Rattle.std.specs.Prelude.{◌≡◌, ◌+◌, ◌-◌, ◌<◌, ◌≤◌, ◌^◌, ◌++◌, [], ℕ, IfOk, OnOk, IsTrue};
ghost use Rattle.std.specs.Prelude.{◌↔◌, length, map, reverse, take};
ghost use Rattle.kt_ckpt.specs.auxiliary.Chain.{IsChain, in_blocks};

use crate::acts::LogAct;
use std::alloc::{AllocError, Global};
use std::fmt;
use std::marker::Model;
use std::sync::Arc;

/// Acts of a node's log, oldest first. They stand in blocks, each of those that came at one time, and each block leads
/// to the one before it. A block never changes and is shared: so a copy takes one pointer, more acts cost what they are
/// themselves, and acts are given up without a copy of those that stay.
#[cycle(acts)]
#[derive(Drop)]
pub struct Acts {
    /// How many there are. The last block may hold more: acts that were given up.
    len: u64,
    last: Link,
}

#[cycle(acts)]
enum Link {
    End,
    Last(Arc<Block, Global>),
}

#[cycle(acts)]
#[derive(Drop)]
struct Block {
    older: Acts,
    acts: Vec<LogAct>,
}

impl Model for Acts {
    ghost use Rattle.std.specs.Prelude.{List, length, take};
    ghost use Rattle.kt_ckpt.specs.declared.acts.LogAct.{LogAct as Listed};

    ghost Value = { List Listed };

    ghost use Rattle.kt_ckpt.specs.auxiliary.Chain.{IsChain, in_blocks};

    ghost view = { λ a. take a.len (in_blocks a.last) };

    ghost invariant = { λ a. IsChain a.len a.last };

    ghost size = { length };

    ghost use Rattle.std.proofs.Common.{arith, length-append};
    ghost use Rattle.std.proofs.lemmas.List.{length-take-le};

    ghost size_decreases = { λ a h. Prim.grind (arith, length-append, length-take-le) };
}

/// The newest act comes first, since a block leads to the one before it. That there are blocks is not to be seen.
impl fmt::Debug for Acts {
    fn fmt<W: fmt::Write>(&self, f: &mut fmt::Formatter<W>) -> fmt::Result {
        write!(f, "{} acts", self.len)?;
        let mut acts = self;
        while let Link::Last(block) = &acts.last {
            show_newest_first(f, own(acts.len, block))?;
            acts = &block.older;
        }
        Ok(())
    }
}

fn show_newest_first<W: fmt::Write>(f: &mut fmt::Formatter<W>, acts: &[LogAct]) -> fmt::Result {
    for act in acts.iter().rev() {
        write!(f, ", {act:?}")?;
    }
    Ok(())
}

/// A loop and no recursion: there may be a block for each checkpoint, and a call for each of them would run out of the
/// stack.
impl Drop for Link {
    fn drop(mut self) {
        loop {
            match self {
                Link::End => return,
                Link::Last(block) => match Arc::into_inner(block) {
                    None => return,
                    Some(Block { older, .. }) => {
                        let Acts { last, .. } = older;
                        self = last;
                    }
                },
            }
        }
    }
}

impl Link {
    /// The same block.
    fn copy(&self) -> Result<Link, AllocError>
        ensures acts { IfOk result (λ l. in_blocks l ≡ in_blocks self.now) }
        ensures chain { IfOk result (λ l. (len : ℕ) → IsChain len self.now → IsChain len l) }
    {
        match self {
            Link::End => Ok(Link::End),
            Link::Last(block) => Ok(Link::Last(Arc::try_clone(block)?)),
        }
    }
}

/// The block's own acts, where it ends so many.
fn own(len: u64, block: &Block) -> &[LogAct]
    requires older { length block.now.older ≤ len }
    requires held { len ≤ length block.now.older + length block.now.acts.items }
    ensures { result.now ≡ take (len - length block.now.older) block.now.acts.items }
{
    &block.acts[..(len - block.older.len) as usize]
}

/// So many of the acts of the block and of those before it.
fn first_of(last: &Link, len: u64) -> Result<Acts, AllocError>
    requires { IsChain len last.now }
    ensures { IfOk result (λ a. a ≡ take len (in_blocks last.now)) }
{
    let last = last.copy()?;
    Ok(Acts { len, last })
}

impl Acts {
    /// No acts.
    pub fn none() -> Acts
        ensures { result ≡ [] }
    {
        Acts {
            len: 0,
            last: Link::End,
        }
    }

    /// How many there are.
    pub fn len(&self) -> u64
        ensures { result ≡ length self.now }
    {
        self.len
    }

    /// Whether there is none.
    pub fn is_empty(&self) -> bool
        ensures { IsTrue result ↔ (self.now ≡ []) }
    {
        self.len == 0
    }

    /// The same acts, shared: it takes no memory.
    pub fn copy(&self) -> Result<Acts, AllocError>
        ensures { IfOk result (λ a. a ≡ self.now) }
    {
        first_of(&self.last, self.len)
    }

    /// These acts and more behind them.
    pub fn with(self, alloc: Global, more: Vec<LogAct>) -> Result<Acts, AllocError>
        requires { length self + length more.items < 2 ^ 64 }
        ensures { IfOk result (λ a. a ≡ self ++ more.items) }
    {
        if more.is_empty() {
            return Ok(self);
        }
        let len = self.len + more.len() as u64;
        let block = Block {
            older: self,
            acts: more,
        };
        Ok(Acts {
            len,
            last: Link::Last(Arc::new(alloc, block)?),
        })
    }

    /// The first so many of these acts, or all, shared: it takes no memory. Blocks of which nothing is left are left
    /// out.
    pub fn first(&self, keep: u64) -> Result<Acts, AllocError>
        ensures { IfOk result (λ a. a ≡ take keep self.now) }
    {
        let mut acts = self;
        while let Link::Last(block) = &acts.last {
            if block.older.len < keep {
                return first_of(&acts.last, acts.len.min(keep));
            }
            acts = &block.older;
        }
        Ok(Acts::none())
    }

    /// The acts, oldest first. It goes through all of them.
    pub fn listed(&self, alloc: Global) -> Result<Vec<&LogAct>, AllocError>
        ensures { IfOk result (λ v. map (λ a. a.now) v.items ≡ self.now) }
    {
        let mut listed = Vec::with_capacity(alloc, self.len as usize)?;
        let mut acts = self;
        while let Link::Last(block) = &acts.last {
            push_newest_first(&mut listed, own(acts.len, block))?;
            acts = &block.older;
        }
        listed.reverse();
        Ok(listed)
    }
}

fn push_newest_first<'a>(listed: &mut Vec<&'a LogAct>, acts: &'a [LogAct]) -> Result<(), AllocError>
    ensures { OnOk result (map (λ a. a.now) listed.new.items ≡
        map (λ a. a.now) listed.old.items ++ reverse acts.now) }
{
    for act in acts.iter().rev() {
        listed.push(act)?;
    }
    Ok(())
}
