//! What becomes of a node in a frequent step of a worker or a shard.
//! Cited by updating.rt; other crates.

ghost use Rattle.std.specs.Prelude.{◌≡◌, IsTrue};
ghost use Rattle.kt_state.specs.declared.change.Change.TheVariants.{Update as Goes};
ghost use Rattle.kt_state.specs.ShortUpdate.{update_of};
ghost use Rattle.kt_state.specs.Codes.{body_view, live_view};
ghost use Rattle.kt_state.specs.auxiliary.Rooms.{body_has_room, live_has_room, HasTables};
ghost use Rattle.kt_state.specs.Ready.{CanChange, CanChangeBody, CanUpdate};
ghost use Rattle.kt_state.specs.Updating.{changed, changed_body, updated};

use crate::live::{Body, Live};
use crate::node::Node;
use crate::updating::write;
use kt_link::Label;
use kt_shard::{Prepared, Request};
use kt_tuple::NodeId;
use kt_worker::Worker;

/// What becomes of a node in a frequent step.
#[derive(Debug, Drop)]
pub enum ShortUpdate {
    /// The worker becomes this one, which asks the node.
    Asks {
        to: NodeId,
        asker: Worker,
    },
    /// The worker becomes this one, which has heard the answer of this label from the node.
    Accepts {
        from: NodeId,
        label: Label,
        hearer: Worker,
    },
    /// The shard has heard the message of this label from the worker, which waits with the request.
    Waits {
        from: NodeId,
        label: Label,
        request: Request,
    },
    /// The shard has heard the message of this label from the node, and answers it once more.
    Answers {
        from: NodeId,
        label: Label,
    },
    /// The shard has served the worker of this number.
    Serves {
        worker: u8,
        service: Prepared,
    },
}

impl Node {
    /// Makes the update. It takes no memory: there is room for one tuple more.
    pub fn update_short(&mut self, update: ShortUpdate)
        requires can { CanChange self.old.node (Goes (update_of update)) }
        requires room { IsTrue self.old.has_room }
        ensures { self.new.node ≡ changed (Goes (update_of update)) self.old.node }
    {
        match &mut self.live {
            Some(live) => live.update_short(update),
            None => drop(update),
        }
    }
}

impl Live {
    fn update_short(&mut self, update: ShortUpdate)
        requires tables { HasTables self.old }
        requires can { CanUpdate (live_view self.old) (update_of update) }
        requires room { IsTrue (live_has_room self.old) }
        ensures updated { live_view self.new ≡ updated (update_of update) (live_view self.old) }
        ensures tables { HasTables self.new }
    {
        match update {
            ShortUpdate::Asks { to, asker } => {
                self.body.work(asker);
                self.say(to);
            }
            ShortUpdate::Accepts {
                from,
                label,
                hearer,
            } => {
                self.body.work(hearer);
                write(&mut self.received, from, label);
            }
            ShortUpdate::Waits {
                from,
                label,
                request,
            } => {
                self.body.wait(from.number(), request);
                write(&mut self.received, from, label);
            }
            ShortUpdate::Answers { from, label } => {
                write(&mut self.received, from, label);
                self.say(from);
            }
            ShortUpdate::Serves { worker, service } => {
                self.body.serve(worker, service);
                self.say(NodeId::Worker(worker));
            }
        }
    }
}

impl Body {
    ghost use Rattle.kt_state.specs.declared.change.BodyChange.TheVariants as bodies;

    fn work(&mut self, changed: Worker)
        ensures { body_view self.new ≡ changed_body (body_view self.old) (bodies.Work changed) }
    {
        match self {
            Body::Worker(worker) => *worker = changed,
            Body::Shard(_) => drop(changed),
        }
    }

    fn wait(&mut self, worker: u8, request: Request)
        requires can { CanChangeBody (body_view self.old) (bodies.Wait worker request) }
        requires room { IsTrue (body_has_room self.old) }
        ensures { body_view self.new ≡ changed_body (body_view self.old) (bodies.Wait worker request) }
    {
        match self {
            Body::Worker(_) => drop(request),
            Body::Shard(shard) => shard.wait(worker, request),
        }
    }

    fn serve(&mut self, worker: u8, service: Prepared)
        requires can { CanChangeBody (body_view self.old) (bodies.Serve worker service) }
        requires room { IsTrue (body_has_room self.old) }
        ensures { body_view self.new ≡ changed_body (body_view self.old) (bodies.Serve worker service) }
    {
        match self {
            Body::Worker(_) => drop(service),
            Body::Shard(shard) => shard.carry_out(worker, service),
        }
    }
}
