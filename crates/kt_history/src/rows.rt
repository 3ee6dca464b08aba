//! The logs of the nodes, a row for each.
//! Cited by history.rt.

ghost use Rattle.std.specs.Prelude.{◌≡◌, ◌∷◌, ◌++◌, [], ℕ, ◌+◌, ◌<◌, take, drop, length, slice_set, vec_len, OnOk};
ghost use Rattle.kt_tuple.specs.Node.{names};
ghost use Rattle.kt_history.specs.Log.{last_of};
ghost use Rattle.kt_history.specs.auxiliary.Marks.{rows_of, row_at, HasRoom, SameRows};

use std::alloc::AllocError;

/// For each node, by `NodeId::index`, the numbers of the acts in its log. It has rows up to the last node that room
/// was made for.
pub(crate) type Rows = Vec<Vec<u64>>;

/// The last number, or 0 where there is none.
pub(crate) fn last_number(numbers: &[u64]) -> u64
    ensures { result ≡ last_of numbers.now }
{
    match numbers.last() {
        Some(number) => *number,
        None => 0,
    }
}

/// Where one more number will stand, counted from 1.
pub(crate) fn next_place(numbers: &[u64]) -> u64
    ensures { result ≡ length numbers.now + 1 }
{
    numbers.len() as u64 + 1
}

/// Makes room for one more number in the row at this place, and empty rows up to it where there are too few.
pub(crate) fn reserve_row(rows: &mut Rows, place: usize) -> Result<(), AllocError>
    requires { place < names }
    ensures same { SameRows rows.old rows.new }
    ensures ok { OnOk result (HasRoom rows.new place) }
{
    let alloc = *rows.allocator();
    'grow: while rows.len() <= place {
        rows.push(Vec::new(alloc))?;
    }
    rows[place].reserve(1)
}

/// Appends the number to the row at this place.
pub(crate) fn append(rows: &mut Rows, place: usize, number: u64)
    requires { HasRoom rows.old place }
    ensures { rows_of rows.new.items ≡ slice_set (rows_of rows.old.items) place
        (row_at (rows_of rows.old.items) place ++ number ∷ []) }
{
    rows[place].push_reserved(number);
}

/// The numbers of the row at this place behind the first so many.
pub(crate) fn behind(rows: &Rows, place: usize, keep: usize) -> &[u64]
    ensures { result.now ≡ drop keep (row_at (rows_of rows.now.items) place) }
{
    match rows.get(place) {
        Some(row) if keep < row.len() => &row[keep..],
        _ => &[],
    }
}

/// Keeps the first numbers of the row at this place.
pub(crate) fn shorten(rows: &mut Rows, place: usize, keep: usize)
    ensures { rows_of rows.new.items ≡ slice_set (rows_of rows.old.items) place
        (take keep (row_at (rows_of rows.old.items) place)) }
{
    if place < rows.len() {
        shorten_at(rows, place, keep);
    }
}

fn shorten_at(rows: &mut Rows, place: usize, keep: usize)
    requires { place < vec_len rows.old }
    ensures { rows_of rows.new.items ≡ slice_set (rows_of rows.old.items) place
        (take keep (row_at (rows_of rows.old.items) place)) }
{
    rows[place].truncate(keep);
}
