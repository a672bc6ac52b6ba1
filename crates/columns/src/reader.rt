// One column's walk: a small reader that carries the row numbers it walks over, and the place that it has come to. It is lent the column's own
// rows, so their end is the column's end. What stands at a place is told by a plain function on slice and number.
ghost use Rattle.std.specs.Prelude.{◌≡◌, drop, slice_get};
ghost use Rattle.std.specs.Iterator.{YieldsFirst, item_count};

#[derive(Drop)]
pub(crate) struct ColumnReader<'a> {
    rows: &'a [u32],
    at: usize,
}

// The work: the row at a place, where there is one.
fn row_at(rows: &[u32], at: usize) -> Option<u32>
    ensures { result ≡ slice_get rows.now at }
{
    rows.get(at).copied()
}

// A reader of a column's rows, at the first one.
pub(crate) fn reader(rows: &[u32]) -> ColumnReader<'_>
    ensures { (result.rows ≡ rows.entry) × (result.at ≡ 0) }
{
    ColumnReader { rows, at: 0 }
}

impl Iterator for ColumnReader<'_> {
    type Item = u32;

    ghost next_gives = { YieldsFirst (λ r. drop r.at r.rows.now) };

    ghost remaining = { item_count (λ r. drop r.at r.rows.now) };

    fn next(&mut self) -> Option<u32> {
        let row = row_at(self.rows, self.at)?;
        self.at += 1;
        Some(row)
    }
}
