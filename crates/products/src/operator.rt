// The reduced operator `S·v = Fᵀ(F·v − E·(EᵀE+λD_e)⁻¹·Eᵀ·F·v) + λD_k·v`, reading only `J`. `d` carries `λ·D_k` for each kept
// local number, and is empty for an undamped solve; the eliminated side's damping is in the inverses. The plan is done as it
// stands, wherever it is from.
#![tactic(auto, using(crate::proofs::OperatorRules::operating))]

ghost use Rattle.std.specs.Prelude.{◌≡◌, length};
ghost use Rattle.columns.specs.Refusals.{told};
ghost use Rattle.columns.specs.Lent.{seen};
ghost use Rattle.plan.specs.SpanWalk.{Chunked};
ghost use Rattle.products.specs.PlanCheck.{rows_only, Risen};
ghost use Rattle.products.specs.Operator.{damp_length, schur_operator};
ghost use Rattle.products.specs.OperatorCalls.{operator_lent, damped_on, DampFits};
ghost use Rattle.plan.specs.LentSpans.{spread_lent};

use crate::plan_check::check_plan;
use crate::side::Side;
use crate::side_sums::{gather_side, inverse_times, side_dof};
use crate::spans_sweep::sweep_plan;
use crate::sweep_check::check_chunked;
use blocks::check::mark_map;
use blocks::eliminated_blocks::count_values;
use blocks::sides::Sides;
use columns::jacobian_ops::clear;
use columns::lent::Columns;
use columns::refusal::{Refusal, wrong_length};
use columns::unchecked::Sign;
use plan::lent::Spans;
use plan::spans::chunk_count;

// How long the vectors and work buffers are that an operator is lent.
#[derive(Clone, Copy)]
struct Sizes {
    v: usize,
    inverses: usize,
    d: usize,
    rows: usize,
    t: usize,
    u: usize,
    out: usize,
}

// What is asked of the damping's length: none is right too.
fn damp_length(n: usize, dof: usize) -> usize
    ensures { result ≡ damp_length n dof }
{
    if n == 0 {
        return dof;
    }
    n
}

// Refusals 11 and 13: the lengths of all that is lent, and then both plans, kept first.
fn check_operands(
    columns: Columns<'_>,
    chunk_len: usize,
    kept_dof: usize,
    elims_dof: usize,
    count: usize,
    sizes: Sizes,
    kept: Spans<'_>,
    elims: Spans<'_>,
) -> Result<(), Refusal>
    requires risen { Risen columns.ptrs.now columns.rows.now }
    requires chunked { Chunked columns.nrows chunk_len }
    ensures { let kept_lent = spread_lent kept.entry in
        let elims_lent = spread_lent elims.entry in
        told result
        ≡ operator_lent columns.entry.nrows (rows_only columns.entry.rows.now) chunk_len kept_dof elims_dof count
        (record { v = sizes.v; inverses = sizes.inverses; d = sizes.d; rows = sizes.rows; t = sizes.t; u = sizes.u; out = sizes.out }) kept_lent
        elims_lent }
{
    let chunks = chunk_count(columns.nrows, chunk_len);
    let kept_count = kept.lo.len();
    let elims_count = elims.lo.len();
    let lengths = [
        sizes.v,
        kept_dof,
        sizes.inverses,
        count,
        damp_length(sizes.d, kept_dof),
        kept_dof,
        kept.starts.len(),
        chunks + 1,
        kept_count,
        kept_count,
        kept.hi.len(),
        kept_count,
        kept.local.len(),
        kept_count,
        elims.starts.len(),
        chunks + 1,
        elims_count,
        elims_count,
        elims.hi.len(),
        elims_count,
        elims.local.len(),
        elims_count,
        sizes.rows,
        columns.nrows,
        sizes.t,
        elims_dof,
        sizes.u,
        elims_dof,
        sizes.out,
        kept_dof,
    ];
    wrong_length(&lengths)?;
    check_plan(Side::Kept, columns, kept_dof, chunk_len, chunks, kept)?;
    check_plan(
        Side::Eliminated,
        columns,
        elims_dof,
        chunk_len,
        chunks,
        elims,
    )
}

// d·v added to out, place by place; no zero is skipped.
fn add_damping(d: &[f64], v: &[f64], out: &mut [f64])
    requires { DampFits (length d.now) (length v.now) (length out.old) }
    ensures { out.new ≡ damped_on d.now v.now out.old }
{
    for (l, x) in d.iter().enumerate() {
        out[l] += *x * v[l];
    }
}

// `S·v`. The rows y, t and u end as the steps leave them.
pub fn apply_schur_operator(
    columns: Columns<'_>,
    sides: Sides<'_>,
    map: &mut [u32],
    chunk_len: usize,
    v: &[f64],
    inverses: &[f64],
    d: &[f64],
    kept: Spans<'_>,
    elims: Spans<'_>,
    y: &mut [f64],
    t: &mut [f64],
    u: &mut [f64],
    out: &mut [f64],
) -> Result<(), Refusal>
    ensures { let m = seen columns.entry in
        let kept_lent = spread_lent kept.entry in
        let elims_lent = spread_lent elims.entry in
        record { told = told result; map = map.new; work = record { rows = y.new; t = t.new; u = u.new; out = out.new } }
        ≡ schur_operator m sides.entry.kept.now sides.entry.elims.now chunk_len map.old
        (record { v = v.now; inverses = inverses.now; d = d.now; kept = kept_lent; elims = elims_lent })
        (record { rows = y.old; t = t.old; u = u.old; out = out.old }) }
{
    check_chunked(columns, sides, chunk_len, map)?;
    let sizes = Sizes {
        v: v.len(),
        inverses: inverses.len(),
        d: d.len(),
        rows: y.len(),
        t: t.len(),
        u: u.len(),
        out: out.len(),
    };
    let lent = check_operands(
        columns,
        chunk_len,
        side_dof(sides.kept),
        side_dof(sides.elims),
        count_values(sides.elims),
        sizes,
        kept,
        elims,
    );
    if let Err(refusal) = lent {
        mark_map(map, columns.count());
        return Err(refusal);
    }
    // y = F·v
    clear(y);
    sweep_plan(Sign::Plus, columns, v, kept, y);
    // t = Eᵀ·y
    gather_side(columns, sides.elims, y, -0.0, t);
    // u = inverses·t
    inverse_times(sides.elims, inverses, t, u);
    // y ← y − E·u
    sweep_plan(Sign::Minus, columns, u, elims, y);
    // out = Fᵀ·y + d·v
    gather_side(columns, sides.kept, y, -0.0, out);
    add_damping(d, v, out);
    Ok(())
}
