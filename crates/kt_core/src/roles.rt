//! Who a node of a scene is.
//! Cited by opening.rt, planning.rt.

ghost use Rattle.std.specs.Prelude.{◌≡◌, [], IfSome, is_some};
ghost use Rattle.kt_scenario.specs.Scene.{is_node};
ghost use Rattle.kt_state.specs.Views.{role_view};
ghost use Rattle.kt_model.specs.State.{role_of};

use kt_node::Role;
use kt_scenario::Scene;
use kt_script::Script;
use kt_tuple::NodeId;

/// Who the node is, where the scene has it. A shard's script is the one with no command.
pub(crate) fn role_in<'a>(scene: &'a Scene, no_script: &'a Script, id: NodeId) -> Option<Role<'a>>
    requires { no_script.now ≡ [] }
    ensures there { is_some result ≡ is_node scene.now id }
    ensures role { IfSome result (λ r. role_view r ≡ role_of scene.now id) }
{
    match id {
        NodeId::Worker(_) => {
            let script = scene.script_of(id)?;
            let peers = scene.shards();
            Some(Role { id, peers, script })
        }
        NodeId::Shard(_) => {
            if !scene.has_shard(id) {
                return None;
            }
            let peers = scene.scripts().len() as u8;
            let script = no_script;
            Some(Role { id, peers, script })
        }
    }
}
