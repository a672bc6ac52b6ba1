// The products over a plan: sweeps and the operator. Each call gets what its problem and its case have, and results exactly as long as the
// expected ones; its map is two places longer than the columns. A call that is refused gives no answer, and so differs.
use crate::lists::{floats, room, same, unused};
use crate::problem::Problem;
use products::operator::apply_schur_operator;
use products::order::sweep;
use products::side::Side;
use std::alloc::{AllocError, Global};

// Whether a progress holds each chunk's span count by the starts.
fn same_progress(got: &[u32], starts: &[u32]) -> bool {
    let ends = starts.iter().skip(1);
    got.iter().zip(starts.iter().zip(ends)).all(|(count, (start, end))| end.checked_sub(*start)
        == Some(*count))
}

// A sweep: the lent rows, none where the call must not read them, the rows after the call, and the order. Each chunk's progress must be its span
// count.
pub(crate) fn same_sweep(
    alloc: Global,
    side: Side,
    p: &Problem,
    lent: &[u32],
    after: &[u32],
    order: &[u32],
) -> Result<bool, AllocError> {
    let swept = p.swept(side);
    let mut map = p.map_room(alloc)?;
    let mut y = room(alloc, after)?;
    for (y, x) in y.iter_mut().zip(floats(alloc, lent)?) {
        *y = x;
    }
    let starts = swept.spans.starts;
    let mut progress = unused(alloc, starts.len().saturating_sub(1))?;
    let answer = sweep(
        side,
        p.columns(),
        p.sides,
        &mut map,
        p.chunk_len,
        &swept.v,
        swept.spans,
        &mut y,
        &mut progress,
        order,
    );
    Ok(answer.is_ok() && p.same_map(&map) && same_progress(&progress, starts) && same(&y, after))
}

// The operator: the damping, none where there is none, the rows, t, u and the result.
pub(crate) fn same_operator(
    alloc: Global,
    p: &Problem,
    damping: &[u32],
    rows: &[u32],
    t: &[u32],
    u: &[u32],
    out: &[u32],
) -> Result<bool, AllocError> {
    let damping = floats(alloc, damping)?;
    let mut map = p.map_room(alloc)?;
    let mut got_rows = room(alloc, rows)?;
    let mut got_t = room(alloc, t)?;
    let mut got_u = room(alloc, u)?;
    let mut got_out = room(alloc, out)?;
    let answer = apply_schur_operator(
        p.columns(),
        p.sides,
        &mut map,
        p.chunk_len,
        &p.kept.v,
        &p.inverses,
        &damping,
        p.kept.spans,
        p.elims.spans,
        &mut got_rows,
        &mut got_t,
        &mut got_u,
        &mut got_out,
    );
    Ok(
        answer.is_ok()
            && p.same_map(&map)
            && same(&got_rows, rows)
            && same(&got_t, t)
            && same(&got_u, u)
            && same(&got_out, out),
    )
}
