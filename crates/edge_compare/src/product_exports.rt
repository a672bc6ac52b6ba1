// The products beside the operator and the update.
ghost use Rattle.std.specs.Prelude.{◌≡◌, true, false};
ghost use Rattle.columns.specs.Columns.{columns_of};
ghost use Rattle.products.specs.Couplings.{apply_eliminated_inverse, coupling};
ghost use Rattle.products.specs.Orders.{step_of, sweep_of};
ghost use Rattle.edge_compare.specs.Compare.{made_export, coupled_export, swept_export, by_number};
ghost use Rattle.plan.specs.Spans.{spread_of};
ghost use Rattle.edge.specs.Edge.{Crossed};

use crate::cross::side_of;
use blocks::sides::Sides;
use columns::lent::Columns;
use edge::cross::cross_answer;
use plan::lent::Spans;
use products::coupling::{apply_eliminated_inverse, coupling_times, coupling_transpose_times};
use products::order::{step, sweep};

// The block inverses times a vector.
pub fn pivotfern_apply_eliminated_inverse(
    nrows: usize,
    ptrs: &[u32],
    rows: &[u32],
    values: &[f64],
    kept: &[u32],
    elims: &[u32],
    map: &mut [u32],
    b: &[f64],
    inverses: &[f64],
    out: &mut [f64],
    first: &mut u64,
    second: &mut u64,
) -> u32
    ensures { let m = columns_of nrows ptrs.now rows.now values.now in
        let told : Crossed = record { number = result; first = first.new; second = second.new } in
        record { told = told; left = (map.new, out.new) }
        ≡ made_export
        (apply_eliminated_inverse m kept.now elims.now map.old b.now inverses.now
        out.old) }
{
    let columns = Columns {
        nrows,
        ptrs,
        rows,
        values,
    };
    let sides = Sides { kept, elims };
    let answer = apply_eliminated_inverse(columns, sides, map, b, inverses, out);
    cross_answer(answer, first, second)
}

// The coupling of the eliminated side with the kept one times a vector.
pub fn pivotfern_coupling_times(
    nrows: usize,
    ptrs: &[u32],
    rows: &[u32],
    values: &[f64],
    kept: &[u32],
    elims: &[u32],
    map: &mut [u32],
    u: &[f64],
    y: &mut [f64],
    out: &mut [f64],
    first: &mut u64,
    second: &mut u64,
) -> u32
    ensures { let m = columns_of nrows ptrs.now rows.now values.now in
        let told : Crossed = record { number = result; first = first.new; second = second.new } in
        record { told = told; left = (map.new, y.new, out.new) }
        ≡ coupled_export
        (coupling true m kept.now elims.now map.old u.now y.old out.old) }
{
    let columns = Columns {
        nrows,
        ptrs,
        rows,
        values,
    };
    let sides = Sides { kept, elims };
    let answer = coupling_times(columns, sides, map, u, y, out);
    cross_answer(answer, first, second)
}

// Its transpose times a vector.
pub fn pivotfern_coupling_transpose_times(
    nrows: usize,
    ptrs: &[u32],
    rows: &[u32],
    values: &[f64],
    kept: &[u32],
    elims: &[u32],
    map: &mut [u32],
    v: &[f64],
    y: &mut [f64],
    out: &mut [f64],
    first: &mut u64,
    second: &mut u64,
) -> u32
    ensures { let m = columns_of nrows ptrs.now rows.now values.now in
        let told : Crossed = record { number = result; first = first.new; second = second.new } in
        record { told = told; left = (map.new, y.new, out.new) }
        ≡ coupled_export
        (coupling false m kept.now elims.now map.old v.now y.old out.old) }
{
    let columns = Columns {
        nrows,
        ptrs,
        rows,
        values,
    };
    let sides = Sides { kept, elims };
    let answer = coupling_transpose_times(columns, sides, map, v, y, out);
    cross_answer(answer, first, second)
}

// One place of a work order. Side 0 is kept, any other eliminated.
pub fn pivotfern_step(
    side: u32,
    nrows: usize,
    ptrs: &[u32],
    rows: &[u32],
    values: &[f64],
    kept: &[u32],
    elims: &[u32],
    map: &mut [u32],
    chunk_len: usize,
    v: &[f64],
    starts: &[u32],
    lo: &[u32],
    hi: &[u32],
    local: &[u32],
    y: &mut [f64],
    progress: &mut [u32],
    chunk: usize,
    first: &mut u64,
    second: &mut u64,
) -> u32
    ensures { let m = columns_of nrows ptrs.now rows.now values.now in
        let lent = spread_of starts.now lo.now hi.now local.now in
        let told : Crossed = record { number = result; first = first.new; second = second.new } in
        record { told = told; left = (map.new, y.new, progress.new) }
        ≡ swept_export
        (step_of (by_number side) m kept.now elims.now chunk_len map.old v.now lent y.old
        progress.old chunk) }
{
    let columns = Columns {
        nrows,
        ptrs,
        rows,
        values,
    };
    let sides = Sides { kept, elims };
    let answer = step(
        side_of(side),
        columns,
        sides,
        map,
        chunk_len,
        v,
        Spans {
            starts,
            lo,
            hi,
            local,
        },
        y,
        progress,
        chunk,
    );
    cross_answer(answer, first, second)
}

// A whole work order, likewise.
pub fn pivotfern_sweep(
    side: u32,
    nrows: usize,
    ptrs: &[u32],
    rows: &[u32],
    values: &[f64],
    kept: &[u32],
    elims: &[u32],
    map: &mut [u32],
    chunk_len: usize,
    v: &[f64],
    starts: &[u32],
    lo: &[u32],
    hi: &[u32],
    local: &[u32],
    y: &mut [f64],
    progress: &mut [u32],
    order: &[u32],
    first: &mut u64,
    second: &mut u64,
) -> u32
    ensures { let m = columns_of nrows ptrs.now rows.now values.now in
        let lent = spread_of starts.now lo.now hi.now local.now in
        let told : Crossed = record { number = result; first = first.new; second = second.new } in
        record { told = told; left = (map.new, y.new, progress.new) }
        ≡ swept_export
        (sweep_of (by_number side) m kept.now elims.now chunk_len map.old v.now lent y.old
        progress.old order.now) }
{
    let columns = Columns {
        nrows,
        ptrs,
        rows,
        values,
    };
    let sides = Sides { kept, elims };
    let answer = sweep(
        side_of(side),
        columns,
        sides,
        map,
        chunk_len,
        v,
        Spans {
            starts,
            lo,
            hi,
            local,
        },
        y,
        progress,
        order,
    );
    cross_answer(answer, first, second)
}
