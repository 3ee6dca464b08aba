//! Laws about plans, each the contract of a function with nothing to do.
//! Cited by no other file of crates/.

ghost use Rattle.std.specs.Prelude.{◌≡◌, ◌<◌, ℕ, Ok};
ghost use Rattle.kt_shard.specs.Limits.{sessions};
ghost use Rattle.kt_tuple.specs.declared.node.NodeId.{NodeId};
ghost use Rattle.kt_state.specs.declared.message.AppMessage.{AppMessage};
ghost use Rattle.kt_state.specs.declared.plan.Plan.{Plan};
ghost use Rattle.kt_node.specs.View.{View};
ghost use Rattle.kt_node.specs.Speaking.{CanAct, HasPlace};
ghost use Rattle.kt_state.specs.Ready.{CanChange};
ghost use Rattle.kt_node.specs.Steps.{issue, repeat, serve, take};
ghost use Rattle.kt_node.specs.AppMessages.{hear_app};

/// A node that can act can make the change of each plan of the underlying computation, where the worker that it serves
/// has a session and the node that it hears has a place in its tables.
pub fn plans_can_be_carried_out()
    ensures issue { (v : View) (plan : Plan) → CanAct v → issue v ≡ Ok plan → CanChange v.node plan.change }
    ensures repeat { (v : View) (plan : Plan) → CanAct v → repeat v ≡ Ok plan → CanChange v.node plan.change }
    ensures take { (v : View) (plan : Plan) → CanAct v → take v ≡ Ok plan → CanChange v.node plan.change }
    ensures serve { (v : View) (worker place by : ℕ) (plan : Plan)
        → CanAct v → worker < sessions → serve v worker place by ≡ Ok plan → CanChange v.node plan.change }
    ensures hear_app { (v : View) (from : NodeId) (app : AppMessage) (plan : Plan)
        → CanAct v → HasPlace from → hear_app v from app ≡ Ok plan → CanChange v.node plan.change }
{}
