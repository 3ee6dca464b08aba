//! Changing a node, once nothing can be refused any more.
//! Cited by loading.rt, short_update.rt; other crates.

ghost use Rattle.std.specs.Prelude.{◌≡◌, ◌<◌, IsTrue, OnOk, length, filter, not, None, Some};
ghost use Rattle.std.specs.VecDeque.{deque_len, deque_capacity};
ghost use Rattle.kt_shard.specs.Table.{put};
ghost use Rattle.kt_state.specs.declared.change.Change.TheVariants.{Update as Goes};
ghost use Rattle.kt_state.specs.Labels.{first_at, no_label};
ghost use Rattle.kt_state.specs.Node.{Alive, Down, IsShard, IsWorker, node_number};
ghost use Rattle.kt_state.specs.Codes.{body_view, live_view};
ghost use Rattle.kt_state.specs.auxiliary.Rooms.{body_has_room, live_has_room, HasTables};
ghost use Rattle.kt_state.specs.Updating.{changed, changed_body, changed_kept, updated, updated_node};
ghost use Rattle.kt_state.specs.Updating.{first_or, is_above, no_update, said};
ghost use Rattle.kt_state.specs.auxiliary.Between.{turned_over};
ghost use Rattle.kt_state.specs.Ready.{CanChange, CanChangeBody, CanSay, CanUpdate};

use crate::change::{BodyChange, Change, KeptChange, Loaded, Update};
use crate::labels::up_to;
use crate::live::{Body, Live};
use crate::message::AppMessage;
use crate::node::Node;
use kt_link::Label;
use kt_shard::Shard;
use kt_tuple::NodeId;
use kt_worker::Worker;
use std::alloc::AllocError;
use std::collections::VecDeque;
use std::mem;

impl Node {
    /// Makes room for one tuple more and for one kept message more; a step needs no more of either, since it puts one
    /// tuple at most and keeps one message at most (docs/DECISIONS.md#bags-and-links).
    pub fn reserve(&mut self) -> Result<(), AllocError>
        ensures same { self.new.node ≡ self.old.node }
        ensures room { OnOk result (IsTrue self.new.has_room) }
    {
        if let Some(live) = &mut self.live {
            live.reserve()?;
        }
        Ok(())
    }

    /// Makes the change, which takes no memory. There is room for one tuple more and one kept message more.
    pub fn change(&mut self, change: Change)
        requires can { CanChange self.old.node change }
        requires room { IsTrue self.old.has_room }
        ensures { self.new.node ≡ changed change self.old.node }
    {
        match change {
            Change::Stay => {}
            Change::Update(update) => self.update(update.into_inner()),
            Change::Fall => self.fall(),
            Change::Load(loaded) => self.become_this(loaded.into_inner()),
        }
    }

    /// The next underlying message goes to the node. It takes no memory.
    pub fn say(&mut self, to: NodeId)
        requires { CanChange self.old.node (Goes (record no_update { said = Some to })) }
        ensures { self.new.node ≡ changed (Goes (record no_update { said = Some to })) self.old.node }
    {
        if let Some(live) = &mut self.live {
            live.say(to);
        }
    }

    fn update(&mut self, update: Update)
        requires can { CanChange self.old.node (Goes update) }
        requires room { IsTrue self.old.has_room }
        ensures { self.new.node ≡ updated_node update self.old.node }
    {
        match &mut self.live {
            Some(live) => live.update(update),
            None => drop(update),
        }
    }

    fn fall(&mut self)
        ensures { self.new.node ≡ Down }
    {
        drop(self.live.take());
    }

    fn become_this(&mut self, loaded: Loaded)
        ensures { self.new.node ≡ Alive loaded }
    {
        drop(self.live.replace(loaded.live));
    }
}

impl Live {
    fn reserve(&mut self) -> Result<(), AllocError>
        requires { HasTables self.old }
        ensures same { live_view self.new ≡ live_view self.old }
        ensures tables { HasTables self.new }
        ensures room { OnOk result (IsTrue (live_has_room self.new)) }
    {
        self.body.reserve()?;
        self.kept.reserve(1)
    }

    fn update(&mut self, update: Update)
        requires tables { HasTables self.old }
        requires can { CanUpdate (live_view self.old) update }
        requires room { IsTrue (live_has_room self.old) }
        ensures updated { live_view self.new ≡ updated update (live_view self.old) }
        ensures tables { HasTables self.new }
    {
        let Update {
            body,
            kept,
            heard,
            said,
            promoted,
            phase,
        } = update;
        self.body.change(body);
        change_kept(&mut self.kept, kept);
        if let Some((from, label)) = heard {
            write(&mut self.received, from, label);
        }
        if let Some(to) = said {
            self.say(to);
        }
        if promoted {
            self.first.fill(None);
        }
        if let Some(phase) = phase {
            drop(mem::replace(&mut self.phase, phase));
        }
    }

    /// Sends the next underlying message to the node.
    pub(crate) fn say(&mut self, to: NodeId)
        requires tables { HasTables self.old }
        requires can { CanSay (live_view self.old) to }
        ensures tables { HasTables self.new }
        ensures said { live_view self.new ≡ said (live_view self.old) to }
    {
        self.count += 1;
        let label = Label {
            incarnation: self.incarnation,
            count: self.count,
        };
        write(&mut self.sent, to, label);
        begin(&mut self.first, to, label);
    }
}

impl Body {
    fn reserve(&mut self) -> Result<(), AllocError>
        ensures same { body_view self.new ≡ body_view self.old }
        ensures room { OnOk result (IsTrue (body_has_room self.new)) }
    {
        if let Body::Shard(shard) = self {
            shard.reserve()?;
        }
        Ok(())
    }

    fn change(&mut self, change: BodyChange)
        requires can { CanChangeBody (body_view self.old) change }
        requires room { IsTrue (body_has_room self.old) }
        ensures { body_view self.new ≡ changed_body (body_view self.old) change }
    {
        match self {
            Body::Worker(worker) => change_worker(worker, change),
            Body::Shard(shard) => change_shard(shard, change),
        }
    }
}

/// Makes the change of a worker; that of a shard changes nothing.
fn change_worker(worker: &mut Worker, change: BodyChange)
    ensures { IsWorker worker.new ≡ changed_body (IsWorker worker.old) change }
{
    match change {
        BodyChange::Work(changed) => *worker = changed,
        other => drop(other),
    }
}

/// Makes the change of a shard; that of a worker changes nothing.
fn change_shard(shard: &mut Shard, change: BodyChange)
    requires can { CanChangeBody (IsShard shard.old.state) change }
    requires room { IsTrue shard.old.has_room }
    ensures { IsShard shard.new.state ≡ changed_body (IsShard shard.old.state) change }
{
    match change {
        BodyChange::Wait { worker, request } => shard.wait(worker, request),
        BodyChange::Serve { worker, service } => shard.carry_out(worker, service),
        BodyChange::Stay | BodyChange::Work(_) => {}
    }
}

/// Writes the label of the node.
pub(crate) fn write(table: &mut Vec<Label>, node: NodeId, label: Label)
    requires { node_number node < length table.old.items }
    ensures written { table.new.items ≡ put no_label table.old.items (node_number node) label }
    ensures long { length table.new.items ≡ length table.old.items }
{
    table[usize::from(node.number())] = label;
}

/// Writes the first label of the node, where it has none.
fn begin(table: &mut Vec<Option<Label>>, node: NodeId, label: Label)
    requires { node_number node < length table.old.items }
    ensures written { table.new.items ≡
        put None table.old.items (node_number node) (first_or label (first_at table.old.items (node_number node))) }
    ensures long { length table.new.items ≡ length table.old.items }
{
    let place = usize::from(node.number());
    table[place] = table[place].or(Some(label));
}

/// Makes the change of what is kept, which takes no memory.
fn change_kept(kept: &mut VecDeque<(NodeId, AppMessage)>, change: KeptChange)
    requires { deque_len kept.old < deque_capacity kept.old }
    ensures { kept.new.items ≡ changed_kept kept.old.items change }
{
    match change {
        KeptChange::Stay => {}
        KeptChange::Append { from, app } => kept.push_back_reserved((from, app)),
        KeptChange::TakeFirst => drop(kept.pop_front()),
        KeptChange::Sieve { from, label } => sieve(kept, from, label),
    }
}

/// Drops what is kept from the node above the label.
fn sieve(kept: &mut VecDeque<(NodeId, AppMessage)>, from: NodeId, label: Label)
    ensures { kept.new.items ≡ filter (λ x. not (is_above from label x)) kept.old.items }
{
    for _ in 0..kept.len() {
        turn_over(kept, from, label);
    }
}

/// Whether the kept message is from the node above the label.
fn is_above(from: NodeId, label: Label, kept: &(NodeId, AppMessage)) -> bool
    ensures { result ≡ is_above from label kept.now }
{
    kept.0 == from && !up_to(kept.1.label, label)
}

/// Takes the first kept message off, and puts it behind the others unless it is from the node above the label.
fn turn_over(kept: &mut VecDeque<(NodeId, AppMessage)>, from: NodeId, label: Label)
    ensures items { kept.new.items ≡ turned_over from label kept.old.items }
{
    if let Some(first) = kept.pop_front() {
        if !is_above(from, label, &first) {
            kept.push_back_reserved(first);
        }
    }
}
