//! What is read of the row of a node, and what each write makes of its cells. Each call takes the row itself and not a
//! reference: where a row is alive as a call of the store ends early, the proof of that call grows by all that a row
//! may hold.
//! Cited by other crates.

ghost use Rattle.std.specs.Prelude.{◌≡◌, ◌+◌, None, IfSome, MatchOption};
ghost use Rattle.kt_store.specs.Content.{greatest};
ghost use Rattle.kt_store.specs.Changes.{promoted_from};
ghost use Rattle.kt_sql_tables.specs.Cells.{cells_node, AreSaid};
ghost use Rattle.kt_sql_tables.specs.auxiliary.Cells.{later};

use crate::cells::NodeCells;
use kt_ckpt::Ckpt;
use kt_store::{NodeRow, Tentative};

/// The permanent checkpoint of the row; `None` where it is the initial one. The row ends here, as in the read below.
pub fn permanent_in(row: NodeRow) -> Option<Ckpt>
    ensures { result ≡ row.permanent }
{
    row.permanent
}

/// The tentative checkpoint of the row with its instance; `None` while there is none.
pub fn tentative_in(row: NodeRow) -> Option<Tentative>
    ensures { result ≡ row.tentative }
{
    row.tentative
}

/// The bytes of the tentative checkpoint, or those of the permanent one where there is none.
fn later(permanent: Option<Vec<u8>>, tentative: Option<Vec<u8>>) -> Option<Vec<u8>>
    ensures { result ≡ later permanent tentative }
{
    match tentative {
        Some(bytes) => Some(bytes),
        None => permanent,
    }
}

/// The cells with the tentative checkpoint made permanent, where there is one. Its bytes are carried as they are.
pub fn promoted(cells: NodeCells) -> NodeCells
    ensures said { AreSaid cells → AreSaid result }
    ensures value { AreSaid cells → cells_node result ≡ record (cells_node cells) {
      permanent = promoted_from (cells_node cells).permanent (cells_node cells).tentative;
      tentative = None;
    } }
{
    let NodeCells {
        id,
        incarnation,
        permanent,
        tentative,
        instance: _,
    } = cells;
    NodeCells {
        id,
        incarnation,
        permanent: later(permanent, tentative),
        tentative: None,
        instance: None,
    }
}

/// The cells without the tentative checkpoint; the permanent one stays.
pub fn discarded(cells: NodeCells) -> NodeCells
    ensures said { AreSaid cells → AreSaid result }
    ensures value { AreSaid cells → cells_node result ≡ record (cells_node cells) { tentative = None } }
{
    let NodeCells {
        id,
        incarnation,
        permanent,
        tentative: _,
        instance: _,
    } = cells;
    NodeCells {
        id,
        incarnation,
        permanent,
        tentative: None,
        instance: None,
    }
}

/// The cells in the next incarnation; `None` where they are in the greatest, 2^62.
pub fn bumped(cells: NodeCells) -> Option<NodeCells>
    ensures said { AreSaid cells → IfSome result AreSaid }
    ensures value { AreSaid cells → MatchOption result ((cells_node cells).incarnation ≡ greatest)
        (λ c. cells_node c ≡ record (cells_node cells) { incarnation = (cells_node cells).incarnation + 1 }) }
{
    let NodeCells {
        id,
        incarnation,
        permanent,
        tentative,
        instance,
    } = cells;
    match incarnation.next() {
        Some(incarnation) => Some(NodeCells {
            id,
            incarnation,
            permanent,
            tentative,
            instance,
        }),
        None => None,
    }
}
