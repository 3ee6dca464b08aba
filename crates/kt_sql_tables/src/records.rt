//! Nodes and instances as what the rows of the two tables stand for: what is read of either is read by the same code.
//! Cited by firsts.rt, opened.rt; whoever calls the trait `Record`.

ghost use Rattle.std.specs.Prelude.{◌≡◌, ◌≤◌, ℕ, length, refl, IfOk, IfErr, IsSomeAnd};
ghost use Rattle.sqlite.specs.Order.{Row as Values};
ghost use Rattle.kt_store.specs.Content.{greatest};
ghost use Rattle.kt_sql_tables.specs.auxiliary.Showing.{Gives, IsReadError};
ghost use Rattle.kt_sql_tables.specs.auxiliary.Testing.{key_of};

use crate::ids::id_of;
use crate::rows::{instance_row_of, node_row};
use kt_store::{InstanceRow, NodeRow, StoreError};
use sqlite::Row;
use std::alloc::Global;

/// What a row of one of the two tables stands for.
pub(crate) trait Record: Sized + Drop {
    ghost COLUMNS: { ℕ };

    ghost given: { Self → Values };

    ghost is_said: { Self → Type 0 };

    /// How many columns a query shows of it.
    const COLUMNS: usize;

    /// Reads it whole from a row; `Damaged` where the row is not as said.
    fn read(alloc: Global, row: &Row) -> Result<Self, StoreError>
        ensures found { IfOk result (λ r. is_said r × (length row.now ≡ COLUMNS → row.now ≡ given r)) }
        ensures exact { (r : Self) → is_said r → row.now ≡ given r → Gives r result }
        ensures named { IfErr result IsReadError };

    /// The number in its key's column; `None` where the tables have none for it.
    fn number(&self) -> Option<u64>
        ensures { is_said self.now → IsSomeAnd result (λ n. (n ≤ greatest) × (n ≡ key_of (given self.now))) };

    ghost width: { (r : Self) → length (given r) ≡ COLUMNS };
}

impl Record for NodeRow {
    ghost use Rattle.kt_sql_tables.specs.Rows.{node_given, IsNodeRow};

    ghost COLUMNS = { 5 };

    ghost given = { node_given };

    ghost is_said = { IsNodeRow };

    const COLUMNS: usize = 5;

    fn read(alloc: Global, row: &Row) -> Result<NodeRow, StoreError> {
        node_row(alloc, row)
    }

    fn number(&self) -> Option<u64> {
        Some(u64::from(id_of(self.node)?))
    }

    ghost width = { λ _. refl };
}

impl Record for InstanceRow {
    ghost use Rattle.kt_sql_tables.specs.Rows.{instance_row_given, IsInstanceRow};

    ghost COLUMNS = { 4 };

    ghost given = { instance_row_given };

    ghost is_said = { IsInstanceRow };

    const COLUMNS: usize = 4;

    fn read(_alloc: Global, row: &Row) -> Result<InstanceRow, StoreError> {
        instance_row_of(row)
    }

    fn number(&self) -> Option<u64> {
        Some(self.instance)
    }

    ghost width = { λ _. refl };
}
