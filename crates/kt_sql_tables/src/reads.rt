//! What is read of the tables.
//! Cited by other crates.

ghost use Rattle.std.specs.Prelude.{◌≡◌, ◌==◌, ◌&&◌, ◌≤◌, Option, fold, map, max, IfOk, IfSome};
ghost use Rattle.std.specs.Prelude.{IsTrue, OnOk};
ghost use Rattle.std.specs.List.{find};
ghost use Rattle.kt_tuple.specs.Node.{node_eq};
ghost use Rattle.kt_store.specs.declared.rows.NodeRow.{NodeRow as NodeFields};
ghost use Rattle.kt_store.specs.declared.rows.InstanceRow.{InstanceRow as InstanceFields};
ghost use Rattle.kt_store.specs.Verdict.{is_open};
ghost use Rattle.kt_store.specs.Content.{greatest, is_empty, nodes_in, permanent_header, row_of, tentative_header};
ghost use Rattle.kt_store.specs.Proper.{IsProper};
ghost use Rattle.kt_store.specs.Changes.{taken};
ghost use Rattle.kt_sql_tables.specs.Reason.{HasReason};
ghost use Rattle.kt_sql_tables.specs.Cells.{cells_node, AreSaid};
ghost use Rattle.kt_sql_tables.specs.Rows.{IsNodeRow, IsInstanceRow};
ghost use Rattle.kt_sql_tables.specs.auxiliary.Showing.{AreRowsOf};
ghost use Rattle.kt_sql_tables.specs.Held.{content_of, is_sound, is_sure, Lasts};
ghost use Rattle.kt_sql_tables.specs.Stopped.{Answers, StopKeeps};

use crate::cells::{NodeCells, with_tentative};
use crate::firsts::{
    first_cells_of, first_incarnation, first_number, first_of, first_permanent, first_tentative,
    has_no_row, nodes_of,
};
use crate::held::Tables;
use crate::ids::id_of;
use crate::number::Number;
use kt_ckpt::{Ckpt, CkptHeader};
use kt_store::{InstanceRow, NodeRow, StoreError, TentativeHeader};
use kt_tuple::NodeId;
use sqlite::{Alter, Row, params};
use std::alloc::Global;

const GET_NODE: &str =
    "SELECT id, incarnation, permanent, tentative, instance FROM kt_node WHERE id = ?1 ORDER BY id";

const ALL_IDS: &str = "SELECT id FROM kt_node ORDER BY id";

const FIRST_NODE: &str =
    "SELECT id, incarnation, permanent, tentative, instance FROM kt_node ORDER BY id LIMIT 1";

const GET_INSTANCE_ROW: &str =
    "SELECT instance, initiator, purpose, verdict FROM kt_board WHERE instance = ?1 ORDER BY instance";

const LAST_INSTANCE_ROW: &str =
    "SELECT instance, initiator, purpose, verdict FROM kt_board ORDER BY instance DESC LIMIT 1";

const OPEN_INSTANCE_ROW: &str =
    "SELECT instance, initiator, purpose, verdict FROM kt_board WHERE initiator = ?1 AND verdict = 0 \
     ORDER BY instance LIMIT 1";

impl<S: Alter> Tables<S> {
    /// The rows of the node: one, or none where nothing is stored of it. While the tables are sound, each row that is
    /// answered is as said; a node that has no id is answered without a look at the connection.
    fn rows_of(&mut self, node: NodeId) -> Result<Vec<Row>, StoreError>
        ensures rows { IsTrue (is_sure S.Store self.new) → IfOk result (λ rows. AreRowsOf
            (find (λ (r : NodeFields). node_eq r.node node) (content_of S.Store self.old).nodes) rows.items) }
        ensures said { IsTrue (is_sound S.Store self.new)
            → IfOk result (λ rows. (row : Option NodeFields) × AreRowsOf row rows.items) }
        ensures same { IsTrue (is_sure S.Store self.new) → content_of S.Store self.new ≡ content_of S.Store self.old }
        ensures honest { IsTrue (is_sure S.Store self.new) → IsTrue (is_sure S.Store self.old) }
        ensures stop { StopKeeps S.Store self.old self.new }
        ensures answers { Answers S.Store self.old self.new result }
        ensures lasts { Lasts S.Store self.old self.new }
        ensures trusted { self.new.is_trusted ≡ self.old.is_trusted }
        ensures reason { HasReason (is_sound S.Store self.new) result }
    {
        let alloc = self.allocator();
        // A node that the tables have no id for has no row.
        let Some(id) = id_of(node) else {
            return Ok(Vec::new(alloc));
        };
        self.ask(GET_NODE, params![id])
    }

    /// The row of the node, where it has one, read to the end, its checkpoints too.
    fn find_node(&mut self, node: NodeId) -> Result<Option<NodeRow>, StoreError>
        ensures value { IsTrue (is_sure S.Store self.new)
            → IfOk result (λ o.
            o ≡ find (λ (r : NodeFields). node_eq r.node node) (content_of S.Store self.old).nodes) }
        ensures found { IfOk result (λ o. IfSome o IsNodeRow) }
        ensures same { IsTrue (is_sure S.Store self.new) → content_of S.Store self.new ≡ content_of S.Store self.old }
        ensures honest { IsTrue (is_sure S.Store self.new) → IsTrue (is_sure S.Store self.old) }
        ensures lasts { Lasts S.Store self.old self.new }
        ensures trusted { self.new.is_trusted ≡ self.old.is_trusted }
        ensures reason { HasReason (is_sound S.Store self.new) result }
    {
        let alloc = self.allocator();
        let rows = self.rows_of(node)?;
        first_of(alloc, &rows)
    }

    /// The incarnation of the node, 1 where it has no row. Nothing else of the row is read.
    pub fn incarnation_of(&mut self, node: NodeId) -> Result<u64, StoreError>
        ensures value { IsTrue (is_sure S.Store self.new)
            → IfOk result (λ n. n ≡ (row_of (content_of S.Store self.old) node).incarnation) }
        ensures most { IfOk result (λ n. n ≤ greatest) }
        ensures same { IsTrue (is_sure S.Store self.new) → content_of S.Store self.new ≡ content_of S.Store self.old }
        ensures honest { IsTrue (is_sure S.Store self.new) → IsTrue (is_sure S.Store self.old) }
        ensures lasts { Lasts S.Store self.old self.new }
        ensures trusted { self.new.is_trusted ≡ self.old.is_trusted }
        ensures reason { HasReason (is_sound S.Store self.new) result }
    {
        let rows = self.rows_of(node)?;
        first_incarnation(&rows)
    }

    /// The permanent checkpoint of the node without the node's state, which is not read.
    pub fn permanent_header_of(
        &mut self,
        alloc: Global,
        node: NodeId,
    ) -> Result<Option<CkptHeader>, StoreError>
        ensures value { IsTrue (is_sure S.Store self.new)
            → IfOk result (λ m. m ≡ permanent_header (content_of S.Store self.old) node) }
        ensures same { IsTrue (is_sure S.Store self.new) → content_of S.Store self.new ≡ content_of S.Store self.old }
        ensures honest { IsTrue (is_sure S.Store self.new) → IsTrue (is_sure S.Store self.old) }
        ensures lasts { Lasts S.Store self.old self.new }
        ensures trusted { self.new.is_trusted ≡ self.old.is_trusted }
        ensures reason { HasReason (is_sound S.Store self.new) result }
    {
        let rows = self.rows_of(node)?;
        first_permanent(alloc, &rows)
    }

    /// The tentative checkpoint of the node with its instance and without the node's state, which is not read.
    pub fn tentative_header_of(
        &mut self,
        alloc: Global,
        node: NodeId,
    ) -> Result<Option<TentativeHeader>, StoreError>
        ensures value { IsTrue (is_sure S.Store self.new)
            → IfOk result (λ m. m ≡ tentative_header (content_of S.Store self.old) node) }
        ensures same { IsTrue (is_sure S.Store self.new) → content_of S.Store self.new ≡ content_of S.Store self.old }
        ensures honest { IsTrue (is_sure S.Store self.new) → IsTrue (is_sure S.Store self.old) }
        ensures lasts { Lasts S.Store self.old self.new }
        ensures trusted { self.new.is_trusted ≡ self.old.is_trusted }
        ensures reason { HasReason (is_sound S.Store self.new) result }
    {
        let rows = self.rows_of(node)?;
        first_tentative(alloc, &rows)
    }

    /// What is stored of the node. A node without a row is in incarnation 1 and has no checkpoint stored.
    pub fn row_of(&mut self, node: NodeId) -> Result<NodeRow, StoreError>
        ensures value { IsTrue (is_sure S.Store self.new)
            → IfOk result (λ r. r ≡ row_of (content_of S.Store self.old) node) }
        ensures first { IfOk result (λ r. 1 ≤ r.incarnation) }
        ensures last { IfOk result (λ r. r.incarnation ≤ greatest) }
        ensures same { IsTrue (is_sure S.Store self.new) → content_of S.Store self.new ≡ content_of S.Store self.old }
        ensures honest { IsTrue (is_sure S.Store self.new) → IsTrue (is_sure S.Store self.old) }
        ensures lasts { Lasts S.Store self.old self.new }
        ensures trusted { self.new.is_trusted ≡ self.old.is_trusted }
        ensures reason { HasReason (is_sound S.Store self.new) result }
    {
        match self.find_node(node)? {
            Some(row) => Ok(row),
            None => Ok(NodeRow {
                node,
                incarnation: 1,
                permanent: None,
                tentative: None,
            }),
        }
    }

    /// The cells of the node's row, where its checkpoints stay the bytes that stand there. A node without a row is in
    /// incarnation 1 and has no checkpoint stored. `Device` where the tables have no id for the node.
    pub fn cells_of(&mut self, node: NodeId) -> Result<NodeCells, StoreError>
        ensures said { IsTrue (is_sure S.Store self.new) → IfOk result AreSaid }
        ensures value { IsTrue (is_sure S.Store self.new)
            → IfOk result (λ c. cells_node c ≡ row_of (content_of S.Store self.old) node) }
        ensures same { IsTrue (is_sure S.Store self.new) → content_of S.Store self.new ≡ content_of S.Store self.old }
        ensures honest { IsTrue (is_sure S.Store self.new) → IsTrue (is_sure S.Store self.old) }
        ensures stop { StopKeeps S.Store self.old self.new }
        ensures answers { Answers S.Store self.old self.new result }
        ensures lasts { Lasts S.Store self.old self.new }
        ensures trusted { self.new.is_trusted ≡ self.old.is_trusted }
        ensures reason { HasReason (is_sound S.Store self.new) result }
    {
        let alloc = self.allocator();
        let Some(id) = id_of(node) else {
            return Err(StoreError::Device);
        };
        let is_trusted = self.is_trusted();
        let rows = self.rows_of(node)?;
        first_cells_of(alloc, id, is_trusted, &rows)
    }

    /// The cells of the node's row with this checkpoint as the tentative one, in the instance. `Device` where the
    /// tables have no id for the node, or hold no number that great.
    pub fn cells_with(
        &mut self,
        node: NodeId,
        instance: u64,
        ckpt: &Ckpt,
    ) -> Result<NodeCells, StoreError>
        ensures said { IsTrue (is_sure S.Store self.new) → IfOk result AreSaid }
        ensures value { IsTrue (is_sure S.Store self.new) → IfOk result (λ c. cells_node c
            ≡ record (row_of (content_of S.Store self.old) node) { tentative = taken instance ckpt.now }) }
        ensures same { IsTrue (is_sure S.Store self.new) → content_of S.Store self.new ≡ content_of S.Store self.old }
        ensures honest { IsTrue (is_sure S.Store self.new) → IsTrue (is_sure S.Store self.old) }
        ensures stop { StopKeeps S.Store self.old self.new }
        ensures answers { Answers S.Store self.old self.new result }
        ensures lasts { Lasts S.Store self.old self.new }
        ensures trusted { self.new.is_trusted ≡ self.old.is_trusted }
        ensures reason { HasReason (is_sound S.Store self.new) result }
    {
        let alloc = self.allocator();
        let cells = self.cells_of(node)?;
        match Number::new(instance) {
            Some(instance) => Ok(with_tentative(alloc, cells, instance, ckpt)?),
            None => Err(StoreError::Device),
        }
    }

    /// The row of the instance, where it was begun.
    pub fn find_instance(&mut self, instance: u64) -> Result<Option<InstanceRow>, StoreError>
        ensures value { IsTrue (is_sure S.Store self.new)
            → IfOk result (λ o.
            o ≡ find (λ (p : InstanceFields). p.instance == instance) (content_of S.Store self.old).board) }
        ensures found { IfOk result (λ o. IfSome o IsInstanceRow) }
        ensures same { IsTrue (is_sure S.Store self.new) → content_of S.Store self.new ≡ content_of S.Store self.old }
        ensures honest { IsTrue (is_sure S.Store self.new) → IsTrue (is_sure S.Store self.old) }
        ensures stop { StopKeeps S.Store self.old self.new }
        ensures answers { Answers S.Store self.old self.new result }
        ensures lasts { Lasts S.Store self.old self.new }
        ensures trusted { self.new.is_trusted ≡ self.old.is_trusted }
        ensures reason { HasReason (is_sound S.Store self.new) result }
    {
        let alloc = self.allocator();
        // No instance above 2^62 is on the board.
        let Some(number) = Number::new(instance) else {
            return Ok(None);
        };
        let rows = self.ask(GET_INSTANCE_ROW, params![number])?;
        first_of(alloc, &rows)
    }

    /// The first instance that the node began and that is open, by rising number.
    pub fn find_open(&mut self, node: NodeId) -> Result<Option<InstanceRow>, StoreError>
        ensures value { IsTrue (is_sure S.Store self.new)
            → IfOk result (λ o. o ≡ find (λ (p : InstanceFields). node_eq p.initiator node && is_open p.verdict)
            (content_of S.Store self.old).board) }
        ensures same { IsTrue (is_sure S.Store self.new) → content_of S.Store self.new ≡ content_of S.Store self.old }
        ensures honest { IsTrue (is_sure S.Store self.new) → IsTrue (is_sure S.Store self.old) }
        ensures lasts { Lasts S.Store self.old self.new }
        ensures trusted { self.new.is_trusted ≡ self.old.is_trusted }
        ensures reason { HasReason (is_sound S.Store self.new) result }
    {
        let alloc = self.allocator();
        let Some(id) = id_of(node) else {
            return Ok(None);
        };
        let rows = self.ask(OPEN_INSTANCE_ROW, params![id])?;
        first_of(alloc, &rows)
    }

    /// The greatest number of an instance, 0 where there is none.
    pub fn last_instance(&mut self) -> Result<u64, StoreError>
        ensures value { IsTrue (is_sure S.Store self.new)
            → IfOk result (λ n.
            n ≡ fold max 0 (map (λ (p : InstanceFields). p.instance) (content_of S.Store self.old).board)) }
        ensures within { IfOk result (λ n. n ≤ greatest) }
        ensures same { IsTrue (is_sure S.Store self.new) → content_of S.Store self.new ≡ content_of S.Store self.old }
        ensures honest { IsTrue (is_sure S.Store self.new) → IsTrue (is_sure S.Store self.old) }
        ensures stop { StopKeeps S.Store self.old self.new }
        ensures answers { Answers S.Store self.old self.new result }
        ensures lasts { Lasts S.Store self.old self.new }
        ensures trusted { self.new.is_trusted ≡ self.old.is_trusted }
        ensures reason { HasReason (is_sound S.Store self.new) result }
    {
        let alloc = self.allocator();
        let rows = self.ask(LAST_INSTANCE_ROW, params![])?;
        first_number(alloc, &rows)
    }

    /// The nodes that have a row, in node order. Nothing else of a row is read.
    pub fn nodes(&mut self, alloc: Global) -> Result<Vec<NodeId>, StoreError>
        ensures value { IsTrue (is_sure S.Store self.new)
            → IfOk result (λ nodes. nodes.items ≡ nodes_in (content_of S.Store self.old)) }
        ensures proper { IsTrue (is_sure S.Store self.new) → OnOk result (IsProper (content_of S.Store self.old)) }
        ensures same { IsTrue (is_sure S.Store self.new) → content_of S.Store self.new ≡ content_of S.Store self.old }
        ensures honest { IsTrue (is_sure S.Store self.new) → IsTrue (is_sure S.Store self.old) }
        ensures lasts { Lasts S.Store self.old self.new }
        ensures trusted { self.new.is_trusted ≡ self.old.is_trusted }
        ensures reason { HasReason (is_sound S.Store self.new) result }
    {
        let rows = self.ask(ALL_IDS, params![])?;
        nodes_of(alloc, &rows)
    }

    /// Whether the table of nodes has no row. Only whether there is one is asked, so a damaged row is not told here.
    pub fn has_no_node(&mut self) -> Result<bool, StoreError>
        ensures value { IsTrue (is_sure S.Store self.new)
            → IfOk result (λ b. b ≡ is_empty (content_of S.Store self.old).nodes) }
        ensures same { IsTrue (is_sure S.Store self.new) → content_of S.Store self.new ≡ content_of S.Store self.old }
        ensures honest { IsTrue (is_sure S.Store self.new) → IsTrue (is_sure S.Store self.old) }
        ensures lasts { Lasts S.Store self.old self.new }
        ensures trusted { self.new.is_trusted ≡ self.old.is_trusted }
        ensures reason { HasReason (is_sound S.Store self.new) result }
    {
        let rows = self.ask(FIRST_NODE, params![])?;
        Ok(has_no_row(&rows))
    }

    /// Whether the board has no row. Only whether there is one is asked, so a damaged row is not told here.
    pub fn has_no_instance_row(&mut self) -> Result<bool, StoreError>
        ensures value { IsTrue (is_sure S.Store self.new)
            → IfOk result (λ b. b ≡ is_empty (content_of S.Store self.old).board) }
        ensures same { IsTrue (is_sure S.Store self.new) → content_of S.Store self.new ≡ content_of S.Store self.old }
        ensures honest { IsTrue (is_sure S.Store self.new) → IsTrue (is_sure S.Store self.old) }
        ensures lasts { Lasts S.Store self.old self.new }
        ensures trusted { self.new.is_trusted ≡ self.old.is_trusted }
        ensures reason { HasReason (is_sound S.Store self.new) result }
    {
        let rows = self.ask(LAST_INSTANCE_ROW, params![])?;
        Ok(has_no_row(&rows))
    }
}
