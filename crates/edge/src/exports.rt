// The three calls that the host makes each night, a function for each: it passes the call on and carries its answer across.
// Every pointer is valid for its length, and what a call may change overlaps nothing else that it is lent: the proofs assume it.
ghost use Rattle.std.specs.Prelude.{◌≡◌};
ghost use Rattle.columns.specs.Columns.{columns_of};
ghost use Rattle.plan.specs.Plan.{buffers, planned};
ghost use Rattle.products.specs.Operator.{schur_operator};
ghost use Rattle.products.specs.Couplings.{combine_updates};
ghost use Rattle.edge.specs.Edge.{Crossed, plan_export, operator_export, update_export};
ghost use Rattle.plan.specs.Spans.{spread_of};

use crate::cross::{cross_answer, cross_plan};
use blocks::sides::Sides;
use columns::lent::Columns;
use plan::lent::Spans;
use plan::structure::plan;
use products::operator::apply_schur_operator;
use products::update::combine_updates;

// The structure plan. 0 has the span counts of the kept and of the eliminated side.
pub fn pivotfern_plan(
    nrows: usize,
    ptrs: &[u32],
    rows: &[u32],
    values: &[f64],
    kept: &[u32],
    elims: &[u32],
    chunk_len: usize,
    map: &mut [u32],
    kept_cols: &mut [u32],
    elims_cols: &mut [u32],
    elims_blocks: &mut [u32],
    owners: &mut [u32],
    row_list: &mut [u32],
    row_starts: &mut [u32],
    visible: &mut [u32],
    visible_starts: &mut [u32],
    kept_starts: &mut [u32],
    kept_lo: &mut [u32],
    kept_hi: &mut [u32],
    kept_local: &mut [u32],
    elims_starts: &mut [u32],
    elims_lo: &mut [u32],
    elims_hi: &mut [u32],
    elims_local: &mut [u32],
    first: &mut u64,
    second: &mut u64,
) -> u32
    ensures { let m = columns_of nrows ptrs.now rows.now values.now in
        let lent = buffers map.old kept_cols.old elims_cols.old elims_blocks.old
        owners.old row_list.old row_starts.old visible.old visible_starts.old
        kept_starts.old kept_lo.old kept_hi.old kept_local.old
        elims_starts.old elims_lo.old elims_hi.old elims_local.old in
        let left = buffers map.new kept_cols.new elims_cols.new elims_blocks.new owners.new
        row_list.new row_starts.new visible.new visible_starts.new kept_starts.new
        kept_lo.new kept_hi.new kept_local.new elims_starts.new elims_lo.new
        elims_hi.new elims_local.new in
        let told : Crossed = record { number = result; first = first.new; second = second.new } in
        record { told = told; left = left }
        ≡ plan_export (planned m kept.now elims.now chunk_len lent) }
{
    let columns = Columns {
        nrows,
        ptrs,
        rows,
        values,
    };
    let sides = Sides { kept, elims };
    let answer = plan(
        columns,
        sides,
        chunk_len,
        map,
        kept_cols,
        elims_cols,
        elims_blocks,
        owners,
        row_list,
        row_starts,
        visible,
        visible_starts,
        kept_starts,
        kept_lo,
        kept_hi,
        kept_local,
        elims_starts,
        elims_lo,
        elims_hi,
        elims_local,
    );
    cross_plan(answer, first, second)
}

// The reduced operator over a plan.
pub fn pivotfern_operator(
    nrows: usize,
    ptrs: &[u32],
    rows: &[u32],
    values: &[f64],
    kept: &[u32],
    elims: &[u32],
    map: &mut [u32],
    chunk_len: usize,
    v: &[f64],
    inverses: &[f64],
    d: &[f64],
    kept_starts: &[u32],
    kept_lo: &[u32],
    kept_hi: &[u32],
    kept_local: &[u32],
    elims_starts: &[u32],
    elims_lo: &[u32],
    elims_hi: &[u32],
    elims_local: &[u32],
    y: &mut [f64],
    t: &mut [f64],
    u: &mut [f64],
    out: &mut [f64],
    first: &mut u64,
    second: &mut u64,
) -> u32
    ensures { let m = columns_of nrows ptrs.now rows.now values.now in
        let kept_lent = spread_of kept_starts.now kept_lo.now kept_hi.now kept_local.now in
        let elims_lent = spread_of elims_starts.now elims_lo.now elims_hi.now elims_local.now in
        let told : Crossed = record { number = result; first = first.new; second = second.new } in
        record { told = told; left = (map.new, record { rows = y.new; t = t.new; u = u.new; out = out.new }) }
        ≡ operator_export
        (schur_operator m kept.now elims.now chunk_len map.old
        (record { v = v.now; inverses = inverses.now; d = d.now; kept = kept_lent; elims = elims_lent })
        (record { rows = y.old; t = t.old; u = u.old; out = out.old })) }
{
    let columns = Columns {
        nrows,
        ptrs,
        rows,
        values,
    };
    let sides = Sides { kept, elims };
    let answer = apply_schur_operator(
        columns,
        sides,
        map,
        chunk_len,
        v,
        inverses,
        d,
        Spans {
            starts: kept_starts,
            lo: kept_lo,
            hi: kept_hi,
            local: kept_local,
        },
        Spans {
            starts: elims_starts,
            lo: elims_lo,
            hi: elims_hi,
            local: elims_local,
        },
        y,
        t,
        u,
        out,
    );
    cross_answer(answer, first, second)
}

// The update of all columns from the kept side's and the eliminated one's.
pub fn pivotfern_update(
    nrows: usize,
    ptrs: &[u32],
    rows: &[u32],
    values: &[f64],
    kept: &[u32],
    elims: &[u32],
    map: &mut [u32],
    kept_update: &[f64],
    elims_update: &[f64],
    out: &mut [f64],
    first: &mut u64,
    second: &mut u64,
) -> u32
    ensures { let m = columns_of nrows ptrs.now rows.now values.now in
        let told : Crossed = record { number = result; first = first.new; second = second.new } in
        record { told = told; left = (map.new, out.new) }
        ≡ update_export
        (combine_updates m kept.now elims.now map.old kept_update.now elims_update.now
        out.old) }
{
    let columns = Columns {
        nrows,
        ptrs,
        rows,
        values,
    };
    let sides = Sides { kept, elims };
    let answer = combine_updates(columns, sides, map, kept_update, elims_update, out);
    cross_answer(answer, first, second)
}
