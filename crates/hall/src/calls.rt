// The calls that the cases make more than once, each with buffers of just the room that the hall needs. What a call leaves comes back whole.
ghost use Rattle.std.specs.Prelude.{◌≡◌};
ghost use Rattle.plan.specs.Plan.{planned};
ghost use Rattle.products.specs.Operator.{schur_operator};
ghost use Rattle.hall.specs.Hall.{hall, columns_with, kept, elims, operands, unused_map, unused_buffers, unused_work, swept_along};
ghost use Rattle.hall.specs.Calls.{plan_outcome, operator_outcome, sweep_outcome};

use crate::tables::{
    CHUNK_LEN, COLUMNS, ELIMS_SPANS, INVERSES, KEPT_SPANS, SIDES, UNUSED, UNUSED_ROW, V,
};
use columns::lent::Columns;
use columns::refusal::{Refusal, Side};
use plan::structure::{SpanCounts, plan};
use products::operator::apply_schur_operator;
use products::order::sweep;

// What planning answers, and its seventeen buffers.
#[derive(Drop)]
pub struct HallPlan {
    pub answer: Result<SpanCounts, Refusal>,
    pub map: [u32; 3],
    pub kept_cols: [u32; 3],
    pub elims_cols: [u32; 3],
    pub elims_blocks: [u32; 3],
    pub owners: [u32; 5],
    pub row_list: [u32; 5],
    pub row_starts: [u32; 3],
    pub visible: [u32; 8],
    pub visible_starts: [u32; 2],
    pub kept_starts: [u32; 4],
    pub kept_lo: [u32; 8],
    pub kept_hi: [u32; 8],
    pub kept_local: [u32; 8],
    pub elims_starts: [u32; 4],
    pub elims_lo: [u32; 8],
    pub elims_hi: [u32; 8],
    pub elims_local: [u32; 8],
}

// Plans the hall with these row numbers, in chunks of two rows.
pub(crate) fn plan_hall(rows: &[u32]) -> HallPlan
    ensures { plan_outcome result ≡ planned (columns_with rows.now) kept elims 2 unused_buffers }
{
    let mut map = [UNUSED; 3];
    let mut kept_cols = [UNUSED; 3];
    let mut elims_cols = [UNUSED; 3];
    let mut elims_blocks = [UNUSED; 3];
    let mut owners = [UNUSED; 5];
    let mut row_list = [UNUSED; 5];
    let mut row_starts = [UNUSED; 3];
    let mut visible = [UNUSED; 8];
    let mut visible_starts = [UNUSED; 2];
    let mut kept_starts = [UNUSED; 4];
    let mut kept_lo = [UNUSED; 8];
    let mut kept_hi = [UNUSED; 8];
    let mut kept_local = [UNUSED; 8];
    let mut elims_starts = [UNUSED; 4];
    let mut elims_lo = [UNUSED; 8];
    let mut elims_hi = [UNUSED; 8];
    let mut elims_local = [UNUSED; 8];
    let answer = plan(
        Columns { rows, ..COLUMNS },
        SIDES,
        CHUNK_LEN,
        &mut map,
        &mut kept_cols,
        &mut elims_cols,
        &mut elims_blocks,
        &mut owners,
        &mut row_list,
        &mut row_starts,
        &mut visible,
        &mut visible_starts,
        &mut kept_starts,
        &mut kept_lo,
        &mut kept_hi,
        &mut kept_local,
        &mut elims_starts,
        &mut elims_lo,
        &mut elims_hi,
        &mut elims_local,
    );
    HallPlan {
        answer,
        map,
        kept_cols,
        elims_cols,
        elims_blocks,
        owners,
        row_list,
        row_starts,
        visible,
        visible_starts,
        kept_starts,
        kept_lo,
        kept_hi,
        kept_local,
        elims_starts,
        elims_lo,
        elims_hi,
        elims_local,
    }
}

// What the operator answers, and its buffers.
#[derive(Drop)]
pub struct HallWork {
    pub answer: Result<(), Refusal>,
    pub map: [u32; 3],
    pub rows: [f64; 5],
    pub t: [f64; 2],
    pub u: [f64; 2],
    pub out: [f64; 1],
}

// The operator on v, over the plan of case 2, with this damping.
pub(crate) fn operate(d: &[f64]) -> HallWork
    ensures { operator_outcome result ≡ schur_operator hall kept elims 2 unused_map (operands d.now) unused_work }
{
    let mut map = [UNUSED; 3];
    let mut rows = [UNUSED_ROW; 5];
    let mut t = [UNUSED_ROW; 2];
    let mut u = [UNUSED_ROW; 2];
    let mut out = [UNUSED_ROW; 1];
    let answer = apply_schur_operator(
        COLUMNS,
        SIDES,
        &mut map,
        CHUNK_LEN,
        &V,
        &INVERSES,
        d,
        KEPT_SPANS,
        ELIMS_SPANS,
        &mut rows,
        &mut t,
        &mut u,
        &mut out,
    );
    HallWork {
        answer,
        map,
        rows,
        t,
        u,
        out,
    }
}

// What a sweep answers, and its buffers.
#[derive(Drop)]
pub struct HallSweep {
    pub answer: Result<(), Refusal>,
    pub map: [u32; 3],
    pub rows: [f64; 5],
    pub progress: [u32; 3],
}

// The kept sweep of v, over the plan of case 2, along this order.
pub(crate) fn sweep_kept(order: &[u32]) -> HallSweep
    ensures { sweep_outcome result ≡ swept_along order.now }
{
    let mut map = [UNUSED; 3];
    let mut rows = [UNUSED_ROW; 5];
    let mut progress = [UNUSED; 3];
    let answer = sweep(
        Side::Kept,
        COLUMNS,
        SIDES,
        &mut map,
        CHUNK_LEN,
        &V,
        KEPT_SPANS,
        &mut rows,
        &mut progress,
        order,
    );
    HallSweep {
        answer,
        map,
        rows,
        progress,
    }
}
