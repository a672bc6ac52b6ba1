// The check that columns keep the rules: refusals 1, 2 and 3.
ghost use Rattle.std.specs.Prelude.{◌≡◌, ◌||◌, ◌+◌, ◌-◌, ◌<◌, ◌≤◌, leb, ltb, length};
ghost use Rattle.ground.specs.First.{first, some};
ghost use Rattle.columns.specs.Refusals.{told};
ghost use Rattle.columns.specs.Columns.{too_big, falls, bad_shape, row_falls, row_bad, bad_row, checked, Shaped};
ghost use Rattle.columns.specs.Lent.{seen};
ghost use Rattle.columns.specs.Unchecked.{RunThere};
ghost use Rattle.columns.specs.Rises.{count, row_rises, begins_low, ends_high, all_rise, RisesFit};

use crate::lent::Columns;
use crate::reader::reader;
use crate::refusal::Refusal;
use ground::wide;

const MOST_ROWS: usize = 1_048_576;

const MOST_COLUMNS: usize = 65_536;

const MOST_ENTRIES: usize = 16_777_216;

#[tactic(auto, unfolding(crate::specs::Columns::too_big))]
fn too_big(nrows: usize, ncolumns: usize, entries: usize) -> bool
    ensures { result ≡ too_big nrows ncolumns entries }
{
    nrows > MOST_ROWS || ncolumns > MOST_COLUMNS || entries > MOST_ENTRIES
}

// Whether a pointer is below the one before it; so of any list. It looks at all of them, without a branch, so that the compiler can take several
// at a time.
pub fn some_pointer_falls(ptrs: &[u32]) -> bool
    ensures { result ≡ some (falls ptrs.now) 0 (length ptrs.now - 1) }
{
    let mut bad = false;
    for [before, after] in ptrs.array_windows::<2>() {
        bad |= *after < *before;
    }
    bad
}

#[tactic(auto, unfolding(crate::specs::Columns::bad_shape))]
fn bad_shape(ptrs: &[u32], entries: usize, nvalues: usize) -> bool
    ensures { result ≡ bad_shape ptrs.now entries nvalues }
{
    let Some(last) = ptrs.last() else {
        return true;
    };
    ptrs[0] != 0 || some_pointer_falls(ptrs) || wide(*last) != entries || nvalues != entries
}

// Whether a row is too large, or below the least that may stand at its place.
fn row_bad(nrows: usize, row: usize, least: usize) -> bool
    ensures { result ≡ (leb nrows row || ltb row least) }
{
    nrows <= row || row < least
}

// How far into a column's own rows the first bad one stands, or their end.
fn walk_column(nrows: usize, rows: &[u32]) -> usize
    ensures { result ≡ first (row_bad nrows rows.now 0) 0 (length rows.now) }
{
    let mut least = 0;
    for (at, row) in reader(rows).enumerate() {
        let row = wide(row);
        if row_bad(nrows, row, least) {
            return at;
        }
        least = row + 1;
    }
    rows.len()
}

// The first bad entry of the column that begins at `from` and ends before `to`, or `to`.
fn bad_place(nrows: usize, rows: &[u32], from: usize, to: usize) -> usize
    requires { RunThere (length rows.now) from to }
    ensures { result ≡ first (row_bad nrows rows.now from) from to }
{
    from + walk_column(nrows, &rows[from..to])
}

// Whether the row at place p is not above the one before it.
fn row_falls(rows: &[u32], p: usize) -> bool
    requires run_there { RunThere (length rows.now) p (p + 1) }
    requires p_nonzero { 0 < p }
    ensures { result ≡ row_falls rows.now p }
{
    rows[p] <= rows[p - 1]
}

// The first column with a bad entry, and the place of its first one.
fn bad_row(columns: Columns) -> Result<(), Refusal>
    requires { Shaped (seen columns) }
    ensures { told result ≡ bad_row (seen columns.entry) }
{
    // By number, which the refusal names.
    for column in 0..columns.count() {
        let from = columns.first_place(column);
        let to = columns.end_place(column);
        let place = bad_place(columns.nrows, columns.rows, from, to);
        if place < to {
            return Err(Refusal::BadRow { column, place });
        }
    }
    Ok(())
}

// How many rows are above the one before them. There is no branch, so that the compiler can take several at a time.
fn count_rises(rows: &[u32]) -> u32
    requires { length rows.now ≤ 16_777_216 }
    ensures { result ≡ count (row_rises rows.now) 1 (length rows.now) }
{
    let mut n: u32 = 0;
    // By index: over `array_windows` the compiler moves values between registers for each pair, 0.3 instructions an entry more.
    for p in 1..rows.len() {
        n += u32::from(rows[p - 1] < rows[p]);
    }
    n
}

// Whether a column has entries, and its first row is not above the one before it, or is the first of all.
fn begins_low(rows: &[u32], from: usize, to: usize) -> bool
    requires { RunThere (length rows.now) from to }
    ensures { result ≡ begins_low rows.now from to }
{
    from < to && (from == 0 || row_falls(rows, from))
}

// Whether a column has entries, and its last row is too large.
fn ends_high(nrows: usize, rows: &[u32], from: usize, to: usize) -> bool
    requires { RunThere (length rows.now) from to }
    ensures { result ≡ ends_high nrows rows.now from to }
{
    from < to && nrows <= wide(rows[to - 1])
}

// Whether all rows are good, by one pass over them, however short the columns: each is above the one before it or begins a column. It finds
// no bad place.
fn all_rise(columns: Columns) -> bool
    requires { RisesFit columns.ptrs.now columns.rows.now }
    ensures { result ≡ all_rise columns.entry.nrows columns.entry.ptrs.now columns.entry.rows.now }
{
    let mut seen = count_rises(columns.rows);
    // By number: a column's places are asked by it, here as everywhere.
    for j in 0..columns.count() {
        let from = columns.first_place(j);
        let to = columns.end_place(j);
        if ends_high(columns.nrows, columns.rows, from, to) {
            return false;
        }
        seen += u32::from(begins_low(columns.rows, from, to));
    }
    wide(seen) == columns.rows.len()
}

// Whether the columns keep the rules: the first rule that is broken.
pub fn check_columns(columns: Columns) -> Result<(), Refusal>
    ensures { told result ≡ checked (seen columns.entry) }
{
    if too_big(columns.nrows, columns.count(), columns.rows.len()) {
        return Err(Refusal::TooBig);
    }
    if bad_shape(columns.ptrs, columns.rows.len(), columns.values.len()) {
        return Err(Refusal::BadShape);
    }
    if all_rise(columns) {
        return Ok(());
    }
    bad_row(columns)
}
