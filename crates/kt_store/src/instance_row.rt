//! The board in memory: rows numbered 1, 2, .. in their order, and beside them a list of those without a verdict. A
//! row is found by its number, and what is open of a node in a list that stays short, however long the board is.
//! Cited by contents.rt.

ghost use Rattle.std.specs.Prelude.{◌≡◌, ◌+◌, IfSome, vec_len, vec_capacity, fold, map, max, length, true};
ghost use Rattle.std.specs.Prelude.{◌<◌, ◌≤◌, ◌==◌};
ghost use Rattle.std.specs.Option.{option_copied};
ghost use Rattle.std.specs.List.{find, position};
ghost use Rattle.kt_tuple.specs.Node.{node_eq};
ghost use Rattle.kt_store.specs.declared.instance_row.Opened.{Opened};
ghost use Rattle.kt_store.specs.declared.rows.InstanceRow.{InstanceRow};
ghost use Rattle.kt_store.specs.Changes.{with_instance_row};
ghost use Rattle.kt_store.specs.Content.{greatest};
ghost use Rattle.kt_store.specs.Verdict.{is_open};
ghost use Rattle.kt_store.specs.Proper.{IsBoard};
ghost use Rattle.kt_store.specs.auxiliary.Rising.{IsNumbered, opened};

use crate::rows::InstanceRow;
use kt_tuple::NodeId;

/// An instance without a verdict, and the node that began it.
#[derive(Clone, Copy, Debug)]
pub(crate) struct Opened {
    pub(crate) instance: u64,
    pub(crate) initiator: NodeId,
}

/// The instance's row, where it was begun.
pub(crate) fn instance_row_at(rows: &[InstanceRow], instance: u64) -> Option<&InstanceRow>
    requires { IsNumbered rows.now }
    ensures { option_copied result ≡ find (λ (row : InstanceRow). row.instance == instance) rows.now }
{
    let place = place_of(rows, instance)?;
    Some(&rows[place])
}

/// The first of these instances that the node began.
pub(crate) fn opened_at(rows: &[Opened], node: NodeId) -> Option<&Opened>
    ensures { option_copied result ≡ find (λ (row : Opened). node_eq row.initiator node) rows.now }
{
    rows.iter().find(|row| row.initiator == node)
}

/// Where the instance's row stands.
pub(crate) fn place_of(rows: &[InstanceRow], instance: u64) -> Option<usize>
    requires { IsNumbered rows.now }
    ensures value { result ≡ position (λ (row : InstanceRow). row.instance == instance) rows.now }
    ensures within { IfSome result (λ place. place < length rows.now) }
{
    let count = rows.len() as u64;
    if 1 <= instance && instance <= count {
        Some((instance - 1) as usize)
    } else {
        None
    }
}

/// Puts the next instance on the board, which has room for it, as has the list of those without a verdict.
pub(crate) fn add_instance_row(
    board: &mut Vec<InstanceRow>,
    undecided: &mut Vec<Opened>,
    new: InstanceRow,
)
    requires board { IsBoard board.old.items }
    requires numbered { IsNumbered board.old.items }
    requires next { new.instance ≡ fold max 0 (map (λ (row : InstanceRow). row.instance) board.old.items) + 1 }
    requires within { new.instance ≤ greatest }
    requires is_open { is_open new.verdict ≡ true }
    requires opened { undecided.old.items ≡ opened board.old.items }
    requires room { vec_len board.old < vec_capacity board.old }
    requires open_room { vec_len undecided.old < vec_capacity undecided.old }
    ensures written { board.new.items ≡ with_instance_row new board.old.items }
    ensures kept { IsBoard board.new.items }
    ensures still_numbered { IsNumbered board.new.items }
    ensures still_opened { undecided.new.items ≡ opened board.new.items }
{
    undecided.push_reserved(Opened {
        instance: new.instance,
        initiator: new.initiator,
    });
    board.push_reserved(new);
}
