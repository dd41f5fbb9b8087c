//! What stands in some columns of a row.

ghost use Rattle.std.specs.Prelude.{◌≡◌, ◌-◌, ◌≤◌, length, take, slice_index};
ghost use Rattle.ham_content.specs.Counted.{at_columns};

use ham_steps::Row;
use ham_syntax::Cols;
use ham_syntax::limits::MAX_COLUMNS;

/// The row's id at a column. Columns count from 1.
fn id_at(column: u8, row: &[u64]) -> u64
    ensures { result ≡ slice_index row.now (column - 1) }
{
    let place = usize::from(column).saturating_sub(1);
    row.get(place).copied().unwrap_or(0)
}

/// Writes the row's ids at the columns over the front.
fn put_columns(ids: &mut [u64], columns: &[u8], row: &[u64])
    requires { length columns.now ≤ length ids.old }
    ensures { take (length columns.now) ids.new ≡ at_columns columns.now row.now }
{
    for (i, column) in columns.iter().enumerate() {
        ids[i] = id_at(*column, row);
    }
}

/// The row's ids at the columns.
pub fn project(columns: &Cols, row: &Row) -> Row
    ensures { result ≡ at_columns columns.now row.now }
{
    let columns = columns.items();
    let mut ids = [0u64; MAX_COLUMNS];
    put_columns(&mut ids, columns, row.items());
    Row::of(&ids[..columns.len()])
}
