// Refusal 13: a plan as it is lent. What the rows of its spans do not tell is looked at first, in a pass over all spans without a branch. Then the rows,
// chunk by chunk, so that a chunk's first row and its size are found once for all of its spans: most spans have a few entries, and are looked at from
// both ends, in a small loop. Rows rise along a column, so a longer span that lies in one column is told by its first and its last row. Its column
// is guessed, from the span before or by halves, and the guess is tested: a span that crosses columns, as a plan from elsewhere may have, is
// looked at entry by entry.
#![tactic(auto, using(crate::proofs::PlanRules::planning))]

ghost use Rattle.std.specs.Prelude.{◌≡◌, ◌+◌, ◌<◌, length};
ghost use Rattle.ground.specs.First.{first, some};
ghost use Rattle.columns.specs.Refusals.{told};
ghost use Rattle.columns.specs.Unchecked.{RunThere};
ghost use Rattle.products.specs.Orders.{starts_bad, spans_told};
ghost use Rattle.products.specs.Side.{eliminated};
ghost use Rattle.plan.specs.LentSpans.{spread_lent};
ghost use Rattle.products.specs.PlanCheck.{
  rows_only,
  row_out,
  in_column,
  narrowed,
  shape_out,
  shape_out_at,
  rows_out_at,
  rows_stop_at,
  chunk_rows_out,
  Found,
  Risen,
  EntriesThere,
  StartsThere,
  SpansThere,
  ChunkThere,
  ChunksThere,
  PlanThere,
};

use crate::side::Side;
use crate::window::Window;
use columns::check::some_pointer_falls;
use columns::lent::Columns;
use columns::refusal::Refusal;
use ground::wide;
use plan::lent::Spans;

// The last column that begins at place a or before it, by halves; where a is the entry count, one past the last column.
fn find_column(ptrs: &[u32], a: usize) -> usize {
    ptrs.partition_point(|p| wide(*p) <= a).saturating_sub(1)
}

// Whether places a up to b lie in column j.
fn in_column(columns: Columns<'_>, j: usize, a: usize, b: usize) -> bool
    ensures { result ≡ in_column columns.entry.ptrs.now j a b }
{
    if columns.count() <= j {
        return false;
    }
    if a < columns.first_place(j) {
        return false;
    }
    b <= columns.end_place(j)
}

// A column to try for a span from a to b, after column j: mostly the next one, else the last that begins at a or before. Nothing rests on it but
// time.
fn guess_column(columns: Columns<'_>, j: usize, a: usize, b: usize) -> usize {
    let next = j.wrapping_add(1);
    if in_column(columns, next, a, b) {
        return next;
    }
    find_column(columns.ptrs, a)
}

// Whether one of places a up to b has a row outside the window: told by the first and the last where they lie in column j.
fn rows_out(window: Window<'_>, j: usize, a: usize, b: usize) -> bool
    requires risen { Risen window.columns.ptrs.now window.columns.rows.now }
    requires run_there { RunThere (length window.columns.rows.now) a b }
    ensures { let w = window.entry in result ≡ some (row_out w.columns.rows.now w.from (w.from + w.size)) a b }
{
    if b <= a {
        return false;
    }
    if in_column(window.columns, j, a, b) {
        let end = window.from + window.size;
        return (window.columns.rows[a] < window.from) | (end <= window.columns.rows[b - 1]);
    }
    window.some_row_out(a, b)
}

// The first of spans `at` up to `last` that has a row outside the window or not a few entries. Good spans of a few, most of them, are passed in this small
// loop. Spans are told by their places in the whole lists: a chunk of one or two spans costs less so than with parts of its own.
fn next_stop(window: Window<'_>, lo: &[u32], hi: &[u32], at: usize, last: usize) -> Option<usize>
    requires { EntriesThere (length window.columns.rows.now) lo.now hi.now at last }
    ensures { let w = window.entry in
        Found (rows_stop_at w.columns.rows.now w.from (w.from + w.size) lo.now hi.now) at last result }
{
    (at..last).find(|k| window.rows_stop(lo[*k], hi[*k]))
}

// Whether one of spans `first` up to `last` has a row outside the window.
fn some_rows_out(window: Window<'_>, lo: &[u32], hi: &[u32], first: usize, last: usize) -> bool
    requires risen { Risen window.columns.ptrs.now window.columns.rows.now }
    requires entries_there { EntriesThere (length window.columns.rows.now) lo.now hi.now first last }
    ensures { let w = window.entry in
        result ≡ some (rows_out_at w.columns.rows.now w.from (w.from + w.size) lo.now hi.now) first last }
{
    let mut j = 0;
    let mut at = first;
    while let Some(k) = next_stop(window, lo, hi, at, last) {
        let a = wide(lo[k]);
        let b = wide(hi[k]);
        j = guess_column(window.columns, j, a, b);
        if rows_out(window, j, a, b) {
            return true;
        }
        at = k + 1;
    }
    false
}

// n, or the largest list number where n is above it: a list number is above the one exactly if it is above the other.
fn narrow(n: usize) -> u32
    ensures { result ≡ narrowed n }
{
    u32::try_from(n).unwrap_or(u32::MAX)
}

// Whether a span from a to b with local number l runs back, past n entries, or has no place among `dof`. No branch, and list numbers alone.
fn shape_bad(n: usize, dof: usize, a: u32, b: u32, l: u32) -> bool
    requires { 0 < dof }
    ensures { result ≡ shape_out n dof a b l }
{
    (b < a) | ((narrow(n) < b) | (narrow(dof - 1) < l))
}

// Whether one of spans `first` up to `last` runs back, past n entries, or has no place among `dof`. All are looked at, so that the compiler can take several
// at a time.
fn shapes_bad(n: usize, dof: usize, spans: Spans<'_>, first: usize, last: usize) -> bool
    requires { SpansThere (length spans.lo.now) (length spans.hi.now) (length spans.local.now) last }
    ensures { let s = spans.entry in result ≡ some (shape_out_at n dof s.lo.now s.hi.now s.local.now) first last }
{
    if dof == 0 {
        return first < last;
    }
    let mut bad = false;
    // By place: over a zip of the three lists the compiler asks at each turn whether one has ended, and takes no two at a time.
    for k in first..last {
        bad |= shape_bad(n, dof, spans.lo[k], spans.hi[k], spans.local[k]);
    }
    bad
}

// How many spans are looked at before one that is bad ends the pass.
const AT_ONCE: usize = 4_096;

// Whether one of a plan's spans runs back, past n entries, or has no place among `dof`. No chunk is asked, so a chunk of one span costs no more than its span.
fn some_shape_bad(n: usize, dof: usize, spans: Spans<'_>) -> bool
    requires hi_there { length spans.hi.now ≡ length spans.lo.now }
    requires local_there { length spans.local.now ≡ length spans.lo.now }
    ensures { let s = spans.entry in result ≡ some (shape_out_at n dof s.lo.now s.hi.now s.local.now) 0 (length s.lo.now) }
{
    let all = spans.lo.len();
    let mut at = 0;
    while at < all {
        let end = at + AT_ONCE.min(all - at);
        if shapes_bad(n, dof, spans, at, end) {
            return true;
        }
        at = end;
    }
    false
}

// Whether a span of chunk c has a row that is none of the chunk's.
fn chunk_rows_out(columns: Columns<'_>, len: usize, spans: Spans<'_>, c: usize) -> bool
    requires risen { Risen columns.ptrs.now columns.rows.now }
    requires chunk_there { ChunkThere len spans.starts.now (length spans.lo.now) (length spans.hi.now) (length spans.local.now) c }
    requires entries_there { EntriesThere (length columns.rows.now) spans.lo.now spans.hi.now 0 (length spans.lo.now) }
    ensures { let lent = spread_lent spans.entry in
        result ≡ chunk_rows_out columns.entry.rows.now len lent c }
{
    let window = Window {
        columns,
        from: (c * len) as u32,
        size: len as u32,
    };
    let first = wide(spans.starts[c]);
    let last = wide(spans.starts[c + 1]);
    some_rows_out(window, spans.lo, spans.hi, first, last)
}

fn some_chunk_rows_out(columns: Columns<'_>, len: usize, chunks: usize, spans: Spans<'_>) -> bool
    requires risen { Risen columns.ptrs.now columns.rows.now }
    requires chunks_there { ChunksThere len chunks spans.starts.now (length spans.lo.now) (length spans.hi.now) (length spans.local.now) }
    requires entries_there { EntriesThere (length columns.rows.now) spans.lo.now spans.hi.now 0 (length spans.lo.now) }
    ensures { let lent = spread_lent spans.entry in
        result ≡ some (chunk_rows_out columns.entry.rows.now len lent) 0 chunks }
{
    (0..chunks).any(|c| chunk_rows_out(columns, len, spans, c))
}

// Whether the starts do not rise from 0 to the span count n without falling.
fn starts_bad(starts: &[u32], chunks: usize, n: usize) -> bool
    requires { StartsThere (length starts.now) chunks }
    ensures { result ≡ starts_bad chunks starts.now n }
{
    if starts[0] != 0 {
        return true;
    }
    if some_pointer_falls(starts) {
        return true;
    }
    wide(starts[chunks]) != n
}

// Refusal 13 of a side's plan, whose lists have the right lengths.
pub(crate) fn check_plan(
    side: Side,
    columns: Columns<'_>,
    dof: usize,
    len: usize,
    chunks: usize,
    spans: Spans<'_>,
) -> Result<(), Refusal>
    requires risen { Risen columns.ptrs.now columns.rows.now }
    requires plan_there { PlanThere len chunks (length spans.starts.now) (length spans.lo.now) (length spans.hi.now) (length spans.local.now) }
    ensures { let lent = spread_lent spans.entry in
        told result ≡ spans_told (eliminated side) (rows_only columns.entry.rows.now) dof len chunks lent }
{
    // Told at each test: one test of the three together takes 0.02 to 0.03 instructions of the operator an entry more.
    if starts_bad(spans.starts, chunks, spans.lo.len()) {
        return Err(Refusal::BadPlan {
            side: side.number(),
        });
    }
    if some_shape_bad(columns.rows.len(), dof, spans) {
        return Err(Refusal::BadPlan {
            side: side.number(),
        });
    }
    if some_chunk_rows_out(columns, len, chunks, spans) {
        return Err(Refusal::BadPlan {
            side: side.number(),
        });
    }
    Ok(())
}
