// One case: `plan` is called as the original was, and its answer and all 17 buffers are compared.
use crate::lists::{Lists, all_lists};
use blocks::sides::Sides;
use columns::lent::Columns;
use columns::refusal::Refusal;
use plan::structure::{SpanCounts, plan};
use std::alloc::{AllocError, Global};

// The places of a buffer, of which a part is lent.
const MOST: usize = 512;

// What every place holds before the call: no number of an answer.
const UNUSED: u32 = 3_000_000_000;

// An answer as the lists have it: 0 and the span counts, or a refusal's number and its two values; none for a refusal with fewer.
fn told(answer: Result<SpanCounts, Refusal>) -> Option<[usize; 3]> {
    match answer {
        Ok(spans) => Some([0, spans.kept, spans.eliminated]),
        Err(r) => {
            let values = r.values();
            (values.count == 2).then_some([r.number() as usize, values.first, values.second])
        }
    }
}

// Whether a buffer begins with the expected numbers, and after them is as it was.
fn same(got: &[u32], expected: &[u32]) -> bool {
    got.strip_prefix(expected)
        .is_some_and(|rest| rest.iter().all(|x| *x == UNUSED))
}

// Whether there is a list for each buffer, and they are the same.
fn all_same(buffers: &[&[u32]], expected: &[&[u32]]) -> bool {
    buffers.len() == expected.len()
        && buffers
            .iter()
            .zip(expected)
            .all(|(got, expected)| same(got, expected))
}

// Whether a case has its lists, and the call gives what is expected. The values are not in the list: a plan looks at none, and a stored 0.0 is
// an entry.
pub(crate) fn is_same(alloc: Global, case: &[u32]) -> Result<bool, AllocError> {
    let lists = all_lists(alloc, case)?;
    let &[
        &[nrows, chunk_len],
        ptrs,
        rows,
        kept,
        elims,
        lent,
        &[code, first, second],
        ref expected @ ..,
    ] = lists.as_slice()
    else {
        return Ok(false);
    };
    // how many places are lent of a buffer that needs as many as there are columns, rows, eliminated blocks and one more, entries, kept blocks
    // and one more, chunks and one more
    let &[by_column, by_row, by_elim, by_entry, by_kept, by_chunk] = lent else {
        return Ok(false);
    };
    let values = [0.0; MOST];
    // each by its name, since an array of buffers whose parts are lent gets no proof; whole, since a list may reach past the part that is lent
    let mut map = [UNUSED; MOST];
    let mut kept_cols = [UNUSED; MOST];
    let mut elims_cols = [UNUSED; MOST];
    let mut elims_blocks = [UNUSED; MOST];
    let mut owners = [UNUSED; MOST];
    let mut row_list = [UNUSED; MOST];
    let mut row_starts = [UNUSED; MOST];
    let mut visible = [UNUSED; MOST];
    let mut visible_starts = [UNUSED; MOST];
    let mut kept_starts = [UNUSED; MOST];
    let mut kept_lo = [UNUSED; MOST];
    let mut kept_hi = [UNUSED; MOST];
    let mut kept_local = [UNUSED; MOST];
    let mut elims_starts = [UNUSED; MOST];
    let mut elims_lo = [UNUSED; MOST];
    let mut elims_hi = [UNUSED; MOST];
    let mut elims_local = [UNUSED; MOST];
    let columns = Columns {
        nrows: nrows as usize,
        ptrs,
        rows,
        values: &values[..rows.len().min(MOST)],
    };
    let sides = Sides { kept, elims };
    let got = plan(
        columns,
        sides,
        chunk_len as usize,
        part(&mut map, by_column),
        part(&mut kept_cols, by_column),
        part(&mut elims_cols, by_column),
        part(&mut elims_blocks, by_column),
        part(&mut owners, by_row),
        part(&mut row_list, by_row),
        part(&mut row_starts, by_elim),
        part(&mut visible, by_entry),
        part(&mut visible_starts, by_kept),
        part(&mut kept_starts, by_chunk),
        part(&mut kept_lo, by_entry),
        part(&mut kept_hi, by_entry),
        part(&mut kept_local, by_entry),
        part(&mut elims_starts, by_chunk),
        part(&mut elims_lo, by_entry),
        part(&mut elims_hi, by_entry),
        part(&mut elims_local, by_entry),
    );
    let buffers: [&[u32]; 17] = [
        &map,
        &kept_cols,
        &elims_cols,
        &elims_blocks,
        &owners,
        &row_list,
        &row_starts,
        &visible,
        &visible_starts,
        &kept_starts,
        &kept_lo,
        &kept_hi,
        &kept_local,
        &elims_starts,
        &elims_lo,
        &elims_hi,
        &elims_local,
    ];
    Ok(
        all_same(&buffers, expected)
            && told(got) == Some([code as usize, first as usize, second as usize]),
    )
}

// The first n places of a buffer, or all of them.
fn part(buffer: &mut [u32; MOST], n: u32) -> &mut [u32] {
    let n = MOST.min(n as usize);
    &mut buffer[..n]
}

// Whether the original refused a case: the first number of its answer, list 6, is not 0.
pub(crate) fn is_refused(case: &[u32]) -> bool {
    Lists(case)
        .nth(6)
        .and_then(|answer| answer.first())
        .is_some_and(|number| *number != 0)
}
