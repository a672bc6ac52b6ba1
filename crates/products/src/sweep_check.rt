// The checks that steps and sweeps have in common: refusals 1 to 9 with a chunk length, 11 and 13. After 11 or 13 the map is marked.
#![tactic(auto, using(crate::proofs::SweepRules::sweeping))]

ghost use Rattle.std.specs.Prelude.{◌≡◌};
ghost use Rattle.columns.specs.Refusals.{told};
ghost use Rattle.columns.specs.Lent.{seen};
ghost use Rattle.blocks.specs.Sides.{side_dof, side_of};
ghost use Rattle.plan.specs.SpanWalk.{Chunked};
ghost use Rattle.products.specs.Side.{eliminated};
ghost use Rattle.products.specs.PlanCheck.{rows_only, Risen};
ghost use Rattle.products.specs.SweepCheck.{check_chunked, lent_sweep, check_sweep, FewSides};
ghost use Rattle.plan.specs.LentSpans.{spread_lent};

use crate::plan_check::check_plan;
use crate::side::{Side, chosen};
use crate::side_sums::side_dof;
use blocks::check::{check_parts, mark_map, walk_blocks};
use blocks::sides::Sides;
use columns::lent::Columns;
use columns::refusal::{Refusal, no_room, wrong_length};
use plan::lent::Spans;
use plan::spans::{check_chunk, chunk_count};

// The dof of the side that a call is for.
fn dof_of(side: Side, sides: Sides<'_>) -> usize
    requires { FewSides sides.kept.now sides.elims.now }
    ensures { result ≡ side_dof (side_of (eliminated side) sides.entry.kept.now sides.entry.elims.now) }
{
    side_dof(chosen(side, sides))
}

// Refusals 1 to 9 of a call with a chunk length, and the map that they leave.
pub(crate) fn check_chunked(
    columns: Columns<'_>,
    sides: Sides<'_>,
    chunk_len: usize,
    map: &mut [u32],
) -> Result<(), Refusal>
    ensures { let m = seen columns.entry in
        record { told = told result; map = map.new } ≡ check_chunked m sides.entry.kept.now sides.entry.elims.now chunk_len map.old }
{
    let n = columns.count();
    let rest = check_chunk(chunk_len).and(no_room(&[map.len(), n]));
    check_parts(columns, sides, rest)?;
    walk_blocks(sides, n, map)
}

// Refusals 11 and 13 of a side's sweep or step: the lengths of what is lent, and then its plan. Of v, rows and progress the lengths come.
fn check_lent(
    side: Side,
    columns: Columns<'_>,
    dof: usize,
    chunk_len: usize,
    nv: usize,
    spans: Spans<'_>,
    ny: usize,
    nprogress: usize,
) -> Result<(), Refusal>
    requires risen { Risen columns.ptrs.now columns.rows.now }
    requires chunked { Chunked columns.nrows chunk_len }
    ensures { let lent = spread_lent spans.entry in
        told result ≡ lent_sweep (eliminated side) columns.entry.nrows (rows_only columns.entry.rows.now) dof chunk_len nv lent ny nprogress }
{
    let chunks = chunk_count(columns.nrows, chunk_len);
    let count = spans.lo.len();
    let lengths = [
        nv,
        dof,
        spans.starts.len(),
        chunks + 1,
        count,
        count,
        spans.hi.len(),
        count,
        spans.local.len(),
        count,
        ny,
        columns.nrows,
        nprogress,
        chunks,
    ];
    wrong_length(&lengths)?;
    check_plan(side, columns, dof, chunk_len, chunks, spans)
}

// The checks of a side's sweep or step up to 13, and the map that they leave.
pub(crate) fn check_sweep(
    side: Side,
    columns: Columns<'_>,
    sides: Sides<'_>,
    map: &mut [u32],
    chunk_len: usize,
    nv: usize,
    spans: Spans<'_>,
    ny: usize,
    nprogress: usize,
) -> Result<(), Refusal>
    ensures { let m = seen columns.entry in
        let lent = spread_lent spans.entry in
        record { told = told result; map = map.new }
        ≡ check_sweep (eliminated side) m sides.entry.kept.now sides.entry.elims.now chunk_len map.old nv lent ny nprogress }
{
    check_chunked(columns, sides, chunk_len, map)?;
    let dof = dof_of(side, sides);
    let lent = check_lent(side, columns, dof, chunk_len, nv, spans, ny, nprogress);
    if let Err(refusal) = lent {
        mark_map(map, columns.count());
        return Err(refusal);
    }
    Ok(())
}
