// Work orders: a list of chunk numbers, each of which names the chunk whose next span is done. A step does one place of such a list on lent
// rows and progress; a sweep does a whole list. Both do it by `do_step`, so a sweep is its steps, and a sweep tests its whole order before
// it touches a row.
#![tactic(auto, using(crate::proofs::OrderRules::ordering))]

ghost use Rattle.std.specs.Prelude.{◌≡◌, ◌+◌, true, length, slice_index, slice_set};
ghost use Rattle.ground.specs.First.{some};
ghost use Rattle.columns.specs.Refusals.{told};
ghost use Rattle.columns.specs.Lent.{seen};
ghost use Rattle.products.specs.Orders.{has_next, bad_order, start_rows, step_of, sweep_of};
ghost use Rattle.products.specs.Side.{eliminated};
ghost use Rattle.plan.specs.LentSpans.{spread_lent};
ghost use Rattle.products.specs.OrderWalk.{
  entries_only,
  starts_only,
  left_at,
  counted_to,
  tested_order,
  stepped,
  ran_order,
  StartsFit,
  LeftFits,
  CountFits,
  StepFits,
  RunFits,
};

use crate::side::{Side, side_sign};
use crate::spans_sweep::do_span;
use crate::sweep_check::check_sweep;
use blocks::check::mark_map;
use blocks::sides::Sides;
use columns::jacobian_ops::clear;
use columns::lent::Columns;
use columns::refusal::Refusal;
use columns::unchecked::Sign;
use ground::buckets::fill;
use ground::wide;
use plan::lent::Spans;

// Whether chunk c has a span left.
fn chunk_left(starts: &[u32], progress: &[u32], c: usize) -> bool
    requires { LeftFits (length starts.now) (length progress.now) c }
    ensures { result ≡ left_at starts.now progress.now c }
{
    let at = wide(starts[c]) + wide(progress[c]);
    at < wide(starts[c + 1])
}

// Whether chunk c exists and has a span left.
fn has_next(starts: &[u32], progress: &[u32], c: usize) -> bool
    requires { StartsFit (length starts.now) (length progress.now) }
    ensures { result ≡ has_next (length progress.now) (starts_only starts.now) c (slice_index progress.now c) }
{
    if progress.len() <= c {
        return false;
    }
    chunk_left(starts, progress, c)
}

// Whether some chunk has a span left.
fn some_left(starts: &[u32], progress: &[u32]) -> bool
    requires { StartsFit (length starts.now) (length progress.now) }
    ensures { result ≡ some (left_at starts.now progress.now) 0 (length progress.now) }
{
    (0..progress.len()).any(|c| chunk_left(starts, progress, c))
}

// The first place of an order that names a chunk which does not exist or has no span left, or the order's length. The progress, at 0, ends
// with how often each chunk is named before that place.
fn count_places(starts: &[u32], order: &[u32], progress: &mut [u32]) -> usize
    requires { CountFits (length starts.now) progress.old }
    ensures { record { place = result; progress = progress.new }
        ≡ counted_to (length progress.old) (starts_only starts.now) order.now }
{
    for (i, c) in order.iter().enumerate() {
        let c = wide(*c);
        if !has_next(starts, progress, c) {
            return i;
        }
        progress[c] += 1;
    }
    order.len()
}

// Refusal 14 of an order; the progress counts.
fn try_order(starts: &[u32], order: &[u32], progress: &mut [u32]) -> Result<(), Refusal>
    requires { StartsFit (length starts.now) (length progress.old) }
    ensures { told result ≡ bad_order (length progress.old) (starts_only starts.now) order.now }
{
    fill(0, progress.len(), progress);
    let i = count_places(starts, order, progress);
    if i < order.len() {
        return Err(Refusal::BadSchedule { place: i });
    }
    if some_left(starts, progress) {
        return Err(Refusal::BadSchedule { place: i });
    }
    Ok(())
}

// Refusal 14 of an order; the progress ends at 0.
fn check_order(starts: &[u32], order: &[u32], progress: &mut [u32]) -> Result<(), Refusal>
    requires { StartsFit (length starts.now) (length progress.old) }
    ensures { record { told = told result; progress = progress.new }
        ≡ tested_order (length progress.old) (starts_only starts.now) order.now }
{
    let t = try_order(starts, order, progress);
    fill(0, progress.len(), progress);
    t
}

// The place of the chunk's next span, which then counts as done.
#[tactic(auto, using(crate::proofs::OrderRules::stepping))]
fn take_next(starts: &[u32], progress: &mut [u32], chunk: usize) -> usize
    requires started { StartsFit (length starts.now) (length progress.old) }
    requires next { has_next (length progress.old) (starts_only starts.now) chunk (slice_index progress.old chunk) ≡ true }
    ensures place { result ≡ slice_index starts.now chunk + slice_index progress.old chunk }
    ensures counted { progress.new ≡ slice_set progress.old chunk (slice_index progress.old chunk + 1) }
{
    let done = progress[chunk];
    progress[chunk] = done + 1;
    wide(starts[chunk]) + wide(done)
}

// A step's work: the named chunk's next span, swept. Written out where it is called: as a call of its own it takes 23 instructions a span more.
#[inline(always)]
#[tactic(auto, using(crate::proofs::OrderRules::stepping))]
fn do_step(
    sign: Sign,
    columns: Columns<'_>,
    v: &[f64],
    spans: Spans<'_>,
    y: &mut [f64],
    progress: &mut [u32],
    chunk: usize,
)
    requires { StepFits columns.rows.now (length columns.values.now) (length v.now) (length y.old)
        (spread_lent spans) progress.old chunk }
    ensures { let lent = spread_lent spans.entry in
        record { rows = y.new; progress = progress.new }
        ≡ stepped sign (entries_only columns.entry.rows.now columns.entry.values.now) lent v.now chunk
        (record { rows = y.old; progress = progress.old }) }
{
    let at = take_next(spans.starts, progress, chunk);
    do_span(
        sign,
        columns,
        v,
        spans.lo[at],
        spans.hi[at],
        spans.local[at],
        y,
    );
}

// The work of a whole order that has been tested, from progress 0: its steps, in its order.
#[tactic(auto, using(crate::proofs::OrderRules::stepping))]
fn run_order(
    sign: Sign,
    columns: Columns<'_>,
    v: &[f64],
    spans: Spans<'_>,
    y: &mut [f64],
    progress: &mut [u32],
    order: &[u32],
)
    requires { RunFits columns.rows.now (length columns.values.now) (length v.now) (length y.old)
        (spread_lent spans) progress.old order.now }
    ensures { let lent = spread_lent spans.entry in
        record { rows = y.new; progress = progress.new }
        ≡ ran_order sign (entries_only columns.entry.rows.now columns.entry.values.now) lent v.now order.now
        (record { rows = y.old; progress = progress.old }) }
{
    for chunk in order {
        do_step(sign, columns, v, spans, y, progress, wide(*chunk));
    }
}

// The kept sweep starts the rows at +0.0, the eliminated one from what is lent.
fn start_rows(side: Side, y: &mut [f64])
    ensures { y.new ≡ start_rows (eliminated side) y.old }
{
    if let Side::Kept = side {
        clear(y);
    }
}

// One place of a work order: the named chunk's span at its progress, added to the rows on the kept side, subtracted on the eliminated one.
#[tactic(auto, using(crate::proofs::StepRules::calling))]
pub fn step(
    side: Side,
    columns: Columns<'_>,
    sides: Sides<'_>,
    map: &mut [u32],
    chunk_len: usize,
    v: &[f64],
    spans: Spans<'_>,
    y: &mut [f64],
    progress: &mut [u32],
    chunk: usize,
) -> Result<(), Refusal>
    ensures { let m = seen columns.entry in
        let lent = spread_lent spans.entry in
        record { told = told result; map = map.new; rows = y.new; progress = progress.new }
        ≡ step_of (eliminated side) m sides.entry.kept.now sides.entry.elims.now chunk_len map.old v.now lent y.old
        progress.old chunk }
{
    check_sweep(
        side,
        columns,
        sides,
        map,
        chunk_len,
        v.len(),
        spans,
        y.len(),
        progress.len(),
    )?;
    if !has_next(spans.starts, progress, chunk) {
        mark_map(map, columns.count());
        return Err(Refusal::BadSchedule { place: 0 });
    }
    do_step(side_sign(side), columns, v, spans, y, progress, chunk);
    Ok(())
}

// A whole work order: rows to +0.0 on the kept side, and then each place's step.
#[tactic(auto, using(crate::proofs::StepRules::calling))]
pub fn sweep(
    side: Side,
    columns: Columns<'_>,
    sides: Sides<'_>,
    map: &mut [u32],
    chunk_len: usize,
    v: &[f64],
    spans: Spans<'_>,
    y: &mut [f64],
    progress: &mut [u32],
    order: &[u32],
) -> Result<(), Refusal>
    ensures { let m = seen columns.entry in
        let lent = spread_lent spans.entry in
        record { told = told result; map = map.new; rows = y.new; progress = progress.new }
        ≡ sweep_of (eliminated side) m sides.entry.kept.now sides.entry.elims.now chunk_len map.old v.now lent y.old
        progress.old order.now }
{
    check_sweep(
        side,
        columns,
        sides,
        map,
        chunk_len,
        v.len(),
        spans,
        y.len(),
        progress.len(),
    )?;
    if let Err(refusal) = check_order(spans.starts, order, progress) {
        mark_map(map, columns.count());
        return Err(refusal);
    }
    start_rows(side, y);
    run_order(side_sign(side), columns, v, spans, y, progress, order);
    Ok(())
}
