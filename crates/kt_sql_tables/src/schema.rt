//! Whether a schema is that of the three tables.
//! Cited by opened.rt, ready.rt.

ghost use Rattle.std.specs.Prelude.{◌≡◌, ◌↔◌, false, [], ◌∷◌, Some, IsTrue};
ghost use Rattle.kt_sql_tables.specs.Schema.{column as wanted, keyed_table, no_stamps, node_columns, board_columns};
ghost use Rattle.kt_sql_tables.specs.Schema.{meta_columns, node_table, board_table, meta_table, kt_schema, no_schema};

use sqlite_schema::code::Terms;
use sqlite_schema::schema::{Column, Kind, Schema, Stamps, Table};
use sqlite_value::keys::Collation;
use sqlite_value::value::Value;

/// Whether the schema is that of a store.
pub(crate) fn is_kt_schema(schema: &Schema) -> bool
    ensures { IsTrue result ↔ (schema.now ≡ kt_schema) }
{
    let [nodes, board, meta] = schema.tables.as_slice() else {
        return false;
    };
    is_nodes(nodes)
        && is_board(board)
        && is_meta(meta)
        && schema.indexes.is_empty()
        && schema.views.is_empty()
}

/// Whether there is no table and nothing else.
pub(crate) fn is_no_schema(schema: &Schema) -> bool
    ensures { IsTrue result ↔ (schema.now ≡ no_schema) }
{
    schema.tables.is_empty() && schema.indexes.is_empty() && schema.views.is_empty()
}

fn is_nodes(table: &Table) -> bool
    ensures { IsTrue result ↔ (table.now ≡ node_table) }
{
    is_table(table, b"kt_node", 0) && are_node_columns(table.columns.as_slice())
}

fn is_board(table: &Table) -> bool
    ensures { IsTrue result ↔ (table.now ≡ board_table) }
{
    is_table(table, b"kt_board", 1) && are_board_columns(table.columns.as_slice())
}

fn is_meta(table: &Table) -> bool
    ensures { IsTrue result ↔ (table.now ≡ meta_table) }
{
    is_table(table, b"kt_meta", 2) && are_meta_columns(table.columns.as_slice())
}

fn are_node_columns(columns: &[Column]) -> bool
    ensures { IsTrue result ↔ (columns.now ≡ node_columns) }
{
    let [id, incarnation, permanent, tentative, instance] = columns else {
        return false;
    };
    is_column(id, b"id", Kind::Integer, false)
        && is_column(incarnation, b"incarnation", Kind::Integer, true)
        && is_column(permanent, b"permanent", Kind::Blob, false)
        && is_column(tentative, b"tentative", Kind::Blob, false)
        && is_column(instance, b"instance", Kind::Integer, false)
}

fn are_board_columns(columns: &[Column]) -> bool
    ensures { IsTrue result ↔ (columns.now ≡ board_columns) }
{
    let [instance, initiator, purpose, verdict] = columns else {
        return false;
    };
    is_column(instance, b"instance", Kind::Integer, false)
        && is_column(initiator, b"initiator", Kind::Integer, true)
        && is_column(purpose, b"purpose", Kind::Integer, true)
        && is_column(verdict, b"verdict", Kind::Integer, true)
}

fn are_meta_columns(columns: &[Column]) -> bool
    ensures { IsTrue result ↔ (columns.now ≡ meta_columns) }
{
    let [id, version] = columns else {
        return false;
    };
    is_column(id, b"id", Kind::Integer, false)
        && is_column(version, b"version", Kind::Integer, true)
}

/// Whether it is a column of a STRICT table with this name and type, and nothing else is said of it.
fn is_column(column: &Column, name: &[u8], kind: Kind, not_null: bool) -> bool
    ensures { IsTrue result ↔ (column.now ≡ wanted name.now kind not_null) }
{
    column.name.as_slice() == name
        && column.kind == kind
        && column.is_strict
        && column.not_null == not_null
        && matches!(column.default, Value::Null)
        && column.collation == Collation::Binary
}

/// Whether it is the table of this name and place whose key is its first column, with no other rule.
fn is_table(table: &Table, name: &[u8], tree: u32) -> bool
    ensures { IsTrue result ↔ (table.now ≡ keyed_table name.now tree table.now.columns) }
{
    table.name.as_slice() == name && table.tree == tree && has_one_key(table) && has_no_rule(table)
}

fn has_one_key(table: &Table) -> bool
    ensures { IsTrue result ↔ (table.now.key ≡ Some 0) × (table.now.primary ≡ 0 ∷ []) × (table.now.uniques ≡ [])
        × (table.now.orders ≡ []) }
{
    table.key == Some(0)
        && table.primary.as_slice() == [0].as_slice()
        && table.uniques.is_empty()
        && table.orders.is_empty()
}

fn has_no_rule(table: &Table) -> bool
    ensures { IsTrue result ↔ (table.now.checks ≡ []) × (table.now.references ≡ []) × (table.now.computed ≡ [])
        × (table.now.stamps ≡ no_stamps)
        × (table.now.is_counted ≡ false) }
{
    has_no_term(&table.checks)
        && table.references.is_empty()
        && table.computed.is_empty()
        && has_no_stamp(&table.stamps)
        && !table.is_counted
}

fn has_no_stamp(stamps: &Stamps) -> bool
    ensures { IsTrue result ↔ (stamps.now ≡ no_stamps) }
{
    stamps.places.is_empty() && has_no_term(&stamps.terms) && stamps.formats.is_empty()
}

fn has_no_term(terms: &Terms) -> bool
    ensures { IsTrue result ↔ (terms.now ≡ []) }
{
    terms.roots.is_empty()
}
