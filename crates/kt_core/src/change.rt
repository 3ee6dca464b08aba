//! Changing a node, once nothing can be refused any more.
//! Cited by at_once.rt, lending.rt, machine.rt, short_plans.rt.

ghost use Rattle.std.specs.Prelude.{◌≡◌, ◌<◌, ◌+◌, ◌^◌, None, Some, length, map, IfOk, OnOk, IfSome, IsTrue, unwrap_or};
ghost use Rattle.std.specs.Option.{option_map};
ghost use Rattle.kt_core.specs.Lent.{shard_up};
ghost use Rattle.kt_core.specs.auxiliary.Rows.{HasRoom, row_view};
ghost use Rattle.kt_state.specs.declared.change.Change.TheVariants.{Update as Goes};
ghost use Rattle.kt_state.specs.ShortUpdate.{update_of};
ghost use Rattle.kt_state.specs.Node.{Down};
ghost use Rattle.kt_state.specs.Updating.{no_update};
ghost use Rattle.kt_state.specs.Ready.{CanChange};
ghost use Rattle.kt_node.specs.Steps.{up_of};
ghost use Rattle.kt_state.specs.Updating.{changed};
ghost use Rattle.kt_shard.specs.Table.{at, put};

use kt_node::{Change, Mode, Node, ShortUpdate};
use kt_shard::Shard;
use kt_tuple::NodeId;
use std::alloc::{AllocError, Global};

/// Makes room for one more tuple and one more kept message in the node of this row.
pub(crate) fn make_room_in_row(nodes: &mut Vec<Option<Node>>, row: usize) -> Result<(), AllocError>
    requires { row < length nodes.old.items }
    ensures room { OnOk result (HasRoom (at None nodes.new.items row)) }
    ensures same { map row_view nodes.new.items ≡ map row_view nodes.old.items }
{
    make_room(&mut nodes[row])
}

fn make_room(row: &mut Option<Node>) -> Result<(), AllocError>
    ensures room { OnOk result (HasRoom row.new) }
    ensures same { row_view row.new ≡ row_view row.old }
{
    if let Some(node) = row {
        node.reserve()?;
    }
    Ok(())
}

/// A shard equal to the one that the node of this row is, which shares all with it; `None` where it is none or not up.
pub(crate) fn share_in_row(
    nodes: &mut Vec<Option<Node>>,
    alloc: Global,
    row: usize,
) -> Result<Option<Shard>, AllocError>
    requires { row < length nodes.old.items }
    ensures value { IfOk result (λ found. option_map (λ y. y.state) found
        ≡ shard_up (up_of (unwrap_or (at None (map row_view nodes.old.items) row) Down))) }
    ensures same { map row_view nodes.new.items ≡ map row_view nodes.old.items }
{
    share(&mut nodes[row], alloc)
}

fn share(row: &mut Option<Node>, alloc: Global) -> Result<Option<Shard>, AllocError>
    ensures value { IfOk result (λ found.
        option_map (λ y. y.state) found ≡ shard_up (up_of (unwrap_or (row_view row.old) Down))) }
    ensures same { row_view row.new ≡ row_view row.old }
{
    match row {
        Some(node) if matches!(node.mode(), Mode::Up) => node.share_shard(alloc),
        _ => Ok(None),
    }
}

/// Changes the node of this row, which takes no memory.
pub(crate) fn change_node(nodes: &mut Vec<Option<Node>>, row: usize, change: Change)
    requires row { row < length nodes.old.items }
    requires can { CanChange (unwrap_or (at None (map row_view nodes.old.items) row) Down) change }
    requires room { HasRoom (at None nodes.old.items row) }
    ensures { map row_view nodes.new.items ≡ put None (map row_view nodes.old.items) row
        (option_map (changed change) (at None (map row_view nodes.old.items) row)) }
{
    change_row(&mut nodes[row], change);
}

fn change_row(row: &mut Option<Node>, change: Change)
    requires can { CanChange (unwrap_or (row_view row.old) Down) change }
    requires room { HasRoom row.old }
    ensures { row_view row.new ≡ option_map (changed change) (row_view row.old) }
{
    if let Some(node) = row {
        node.change(change);
    }
}

/// The node of this row sends its next underlying message to the other, which takes no memory.
pub(crate) fn say_in_row(nodes: &mut Vec<Option<Node>>, row: usize, to: NodeId)
    requires row { row < length nodes.old.items }
    requires can { CanChange (unwrap_or (at None (map row_view nodes.old.items) row) Down)
        (Goes (record no_update { said = Some to })) }
    ensures { map row_view nodes.new.items ≡ put None (map row_view nodes.old.items) row
        (option_map (changed (Goes (record no_update { said = Some to })))
        (at None (map row_view nodes.old.items) row)) }
{
    say(&mut nodes[row], to);
}

fn say(row: &mut Option<Node>, to: NodeId)
    requires { CanChange (unwrap_or (row_view row.old) Down) (Goes (record no_update { said = Some to })) }
    ensures { row_view row.new ≡
        option_map (changed (Goes (record no_update { said = Some to }))) (row_view row.old) }
{
    if let Some(node) = row {
        node.say(to);
    }
}

/// Makes the update of the node of this row, which takes no memory.
pub(crate) fn update_in_row(nodes: &mut Vec<Option<Node>>, row: usize, update: ShortUpdate)
    requires row { row < length nodes.old.items }
    requires can { CanChange (unwrap_or (at None (map row_view nodes.old.items) row) Down) (Goes (update_of update)) }
    requires room { HasRoom (at None nodes.old.items row) }
    ensures { map row_view nodes.new.items ≡ put None (map row_view nodes.old.items) row
        (option_map (changed (Goes (update_of update))) (at None (map row_view nodes.old.items) row)) }
{
    update_short(&mut nodes[row], update);
}

fn update_short(row: &mut Option<Node>, update: ShortUpdate)
    requires can { CanChange (unwrap_or (row_view row.old) Down) (Goes (update_of update)) }
    requires room { HasRoom row.old }
    ensures { row_view row.new ≡ option_map (changed (Goes (update_of update))) (row_view row.old) }
{
    match row {
        Some(node) => node.update_short(update),
        None => drop(update),
    }
}

/// Counts one more step of the node of this row.
pub(crate) fn count(own: &mut Vec<u64>, row: usize)
    requires row { row < length own.old.items }
    requires small { at 0 own.old.items row + 1 < 2 ^ 64 }
    ensures { own.new.items ≡ put 0 own.old.items row (at 0 own.old.items row + 1) }
{
    own[row] += 1;
}
