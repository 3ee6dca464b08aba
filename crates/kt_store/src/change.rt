//! One change of a node's row, in a table whose rows stand in node order.
//! Cited by contents.rt, memory.rt.

ghost use Rattle.std.specs.Prelude.{◌≡◌, ◌<◌, length, AllPairs, None, IfSome, OnErr, OnOk, true};
ghost use Rattle.std.specs.List.{find, position};
ghost use Rattle.kt_tuple.specs.Node.{node_eq, is_before};
ghost use Rattle.kt_store.specs.declared.rows.NodeRow.{NodeRow};
ghost use Rattle.kt_store.specs.Content.{row_or};
ghost use Rattle.kt_store.specs.Proper.{IsNodes};
ghost use Rattle.kt_store.specs.Changes.{with_row};
ghost use Rattle.kt_store.specs.auxiliary.Row.{changed, IsWithin};

use crate::rows::{NodeRow, Tentative};
use kt_tuple::NodeId;
use std::alloc::AllocError;

/// What a write makes of a node's row.
#[derive(Drop)]
pub(crate) enum Change {
    /// The node is in this incarnation.
    Incarnation(u64),
    /// The node has this tentative checkpoint.
    Take(Tentative),
    /// The tentative checkpoint, where there is one, becomes permanent.
    Promote,
    /// The tentative checkpoint is given up; the permanent one stays.
    Discard,
}

impl Change {
    /// Makes the change. To promote or to discard where there is no tentative checkpoint changes nothing.
    fn apply(self, row: &mut NodeRow)
        ensures { row.new ≡ changed self row.old }
    {
        match self {
            Change::Incarnation(incarnation) => row.incarnation = incarnation,
            Change::Take(tentative) => row.tentative = Some(tentative),
            Change::Promote => {
                if let Some(Tentative { checkpoint, .. }) = row.tentative.take() {
                    row.permanent = Some(checkpoint);
                }
            }
            Change::Discard => row.tentative = None,
        }
    }
}

/// Makes the change of the node's row. A node without one gets its row here.
pub(crate) fn change_row(
    rows: &mut Vec<NodeRow>,
    node: NodeId,
    change: Change,
) -> Result<(), AllocError>
    requires nodes { IsNodes rows.old.items }
    requires within { IsWithin change }
    ensures written { OnOk result (rows.new.items ≡ with_row
        (changed change (row_or node (find (λ (row : NodeRow). node_eq row.node node) rows.old.items)))
        rows.old.items) }
    ensures unchanged { OnErr result (rows.new.items ≡ rows.old.items) }
    ensures kept { IsNodes rows.new.items }
{
    if let Some(place) = place_of(rows, node) {
        change.apply(&mut rows[place]);
        return Ok(());
    }
    let mut row = NodeRow {
        node,
        incarnation: 1,
        permanent: None,
        tentative: None,
    };
    change.apply(&mut row);
    insert_row(rows, row)
}

/// Puts the row of a node that has none in its place.
fn insert_row(rows: &mut Vec<NodeRow>, new: NodeRow) -> Result<(), AllocError>
    requires rising { AllPairs (λ (a b : NodeRow). is_before a.node b.node ≡ true) rows.old.items }
    requires none { find (λ (row : NodeRow). node_eq row.node new.node) rows.old.items ≡ None }
    ensures written { OnOk result (rows.new.items ≡ with_row new rows.old.items) }
    ensures unchanged { OnErr result (rows.new.items ≡ rows.old.items) }
{
    match place_after(rows, new.node) {
        Some(place) => rows.insert(place, new)?,
        None => rows.push(new)?,
    }
    Ok(())
}

/// Where the node's row stands.
fn place_of(rows: &[NodeRow], node: NodeId) -> Option<usize>
    ensures value { result ≡ position (λ (row : NodeRow). node_eq row.node node) rows.now }
    ensures within { IfSome result (λ place. place < length rows.now) }
{
    rows.iter().position(|row| row.node == node)
}

/// Where the first row stands whose node comes after this one.
fn place_after(rows: &[NodeRow], node: NodeId) -> Option<usize>
    ensures value { result ≡ position (λ (row : NodeRow). is_before node row.node) rows.now }
    ensures within { IfSome result (λ place. place < length rows.now) }
{
    rows.iter().position(|row| node.is_before(row.node))
}
