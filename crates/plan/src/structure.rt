// The structure plan, all of it: the checks, then owners, row lists, visible lists and both sides' spans, each into the buffers lent for it.
// Nothing is written before the checks that may refuse without a trace have passed, and no buffer past its used part is touched at all.
ghost use Rattle.std.specs.Prelude.{◌≡◌, ◌/◌, length};
ghost use Rattle.columns.specs.Refusals.{told};
ghost use Rattle.columns.specs.Lengths.{no_room_of};
ghost use Rattle.columns.specs.Columns.{column_count, entry_count};
ghost use Rattle.columns.specs.Lent.{seen};
ghost use Rattle.plan.specs.Spans.{chunk_count_of};
ghost use Rattle.plan.specs.Plan.{buffers, room_list, told_plan, planned};
ghost use Rattle.plan.specs.RoomCheck.{RoomFits};

use crate::lists::{list_blocks, list_columns};
use crate::owners::row_owners;
use crate::row_lists::row_lists;
use crate::spans::{check_chunk, chunk_count, spans};
use crate::visible::visible_lists;
use blocks::check::{check_parts, mark_map, walk_blocks};
use blocks::sides::Sides;
use columns::lent::Columns;
use columns::refusal::{Refusal, no_room};

// How many spans each side has.
#[derive(Clone, Copy)]
pub struct SpanCounts {
    pub kept: usize,
    pub eliminated: usize,
}

// Refusal 6: each buffer's length and need, in the order of the room list. The lengths alone are passed, side by side as the slices are.
fn check_room(
    columns: Columns,
    sides: Sides,
    chunk_len: usize,
    map: usize,
    kept_cols: usize,
    elims_cols: usize,
    elims_blocks: usize,
    owners: usize,
    row_list: usize,
    row_starts: usize,
    visible: usize,
    visible_starts: usize,
    kept_starts: usize,
    kept_lo: usize,
    kept_hi: usize,
    kept_local: usize,
    elims_starts: usize,
    elims_lo: usize,
    elims_hi: usize,
    elims_local: usize,
) -> Result<(), Refusal>
    requires { RoomFits columns.nrows chunk_len (length sides.kept.now / 2) (length sides.elims.now / 2) }
    ensures { let m = seen columns.entry in
        told result
        ≡ no_room_of
        (room_list (column_count m) m.nrows (entry_count m) (length sides.entry.kept.now / 2) (length sides.entry.elims.now / 2)
        (chunk_count_of m.nrows chunk_len)
        map kept_cols elims_cols elims_blocks owners row_list row_starts visible visible_starts
        kept_starts kept_lo kept_hi kept_local elims_starts elims_lo elims_hi elims_local) }
{
    let n = columns.count();
    let nrows = columns.nrows;
    let entries = columns.rows.len();
    let starts = chunk_count(nrows, chunk_len) + 1;
    no_room(&[
        map,
        n,
        kept_cols,
        n,
        elims_cols,
        n,
        elims_blocks,
        n,
        owners,
        nrows,
        row_list,
        nrows,
        row_starts,
        sides.elims.len() / 2 + 1,
        visible,
        entries,
        visible_starts,
        sides.kept.len() / 2 + 1,
        kept_starts,
        starts,
        kept_lo,
        entries,
        kept_hi,
        entries,
        kept_local,
        entries,
        elims_starts,
        starts,
        elims_lo,
        entries,
        elims_hi,
        entries,
        elims_local,
        entries,
    ])
}

// Plans the structure: owners of the rows, row lists, visible lists, and the spans of both sides in chunks of `chunk_len` rows.
pub fn plan(
    columns: Columns,
    sides: Sides,
    chunk_len: usize,
    map: &mut [u32],
    kept_cols: &mut [u32],
    elims_cols: &mut [u32],
    elims_blocks: &mut [u32],
    owners: &mut [u32],
    row_list: &mut [u32],
    row_starts: &mut [u32],
    visible: &mut [u32],
    visible_starts: &mut [u32],
    kept_starts: &mut [u32],
    kept_lo: &mut [u32],
    kept_hi: &mut [u32],
    kept_local: &mut [u32],
    elims_starts: &mut [u32],
    elims_lo: &mut [u32],
    elims_hi: &mut [u32],
    elims_local: &mut [u32],
) -> Result<SpanCounts, Refusal>
    ensures { let lent = buffers map.old kept_cols.old elims_cols.old elims_blocks.old
        owners.old row_list.old row_starts.old visible.old visible_starts.old
        kept_starts.old kept_lo.old kept_hi.old kept_local.old
        elims_starts.old elims_lo.old elims_hi.old elims_local.old in
        let left = buffers map.new kept_cols.new elims_cols.new elims_blocks.new owners.new
        row_list.new row_starts.new visible.new visible_starts.new kept_starts.new
        kept_lo.new kept_hi.new kept_local.new elims_starts.new elims_lo.new
        elims_hi.new elims_local.new in
        record { told = told_plan result; left = left }
        ≡ planned (seen columns.entry) sides.entry.kept.now sides.entry.elims.now chunk_len lent }
{
    // 1 to 5
    check_parts(columns, sides, check_chunk(chunk_len))?;
    // 6
    let n = columns.count();
    check_room(
        columns,
        sides,
        chunk_len,
        map.len(),
        kept_cols.len(),
        elims_cols.len(),
        elims_blocks.len(),
        owners.len(),
        row_list.len(),
        row_starts.len(),
        visible.len(),
        visible_starts.len(),
        kept_starts.len(),
        kept_lo.len(),
        kept_hi.len(),
        kept_local.len(),
        elims_starts.len(),
        elims_lo.len(),
        elims_hi.len(),
        elims_local.len(),
    )?;
    // 7 to 9, and the column map
    walk_blocks(sides, n, map)?;
    // 10, and the owners
    if let Err(refusal) = row_owners(columns, sides.elims, owners) {
        mark_map(map, n);
        return Err(refusal);
    }
    // nothing refuses from here on
    let kept_dof = list_columns(sides.kept, kept_cols);
    let elims_dof = list_columns(sides.elims, elims_cols);
    list_blocks(sides.elims, elims_blocks);
    row_lists(
        columns.nrows,
        owners,
        sides.elims.len() / 2,
        row_list,
        row_starts,
    );
    visible_lists(columns, sides.kept, owners, visible, visible_starts);
    let kept_spans = spans(
        columns,
        kept_cols,
        kept_dof,
        chunk_len,
        kept_starts,
        kept_lo,
        kept_hi,
        kept_local,
    );
    let eliminated_spans = spans(
        columns,
        elims_cols,
        elims_dof,
        chunk_len,
        elims_starts,
        elims_lo,
        elims_hi,
        elims_local,
    );
    Ok(SpanCounts {
        kept: kept_spans,
        eliminated: eliminated_spans,
    })
}
