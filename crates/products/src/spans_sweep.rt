// A plan's spans, swept one after the other. Nothing is checked here: each `requires` is what the checks of src/sweep_check.rt give.
#![tactic(auto, using(crate::proofs::OrderRules::stepping))]

ghost use Rattle.std.specs.Prelude.{◌≡◌, length, slice_index_or};
ghost use Rattle.std.specs.Float.{nan};
ghost use Rattle.ground.specs.Gather.{gather};
ghost use Rattle.columns.specs.Sums.{swept_on};
ghost use Rattle.products.specs.Orders.{span_terms};
ghost use Rattle.columns.specs.JacobianOps.{landings};
ghost use Rattle.products.specs.OrderWalk.{entries_only, spans_only, SpanThere, SpansFit};

use columns::lent::Columns;
use columns::unchecked::{Sign, sweep_entries};
use ground::wide;
use plan::lent::Spans;

// The entries of a span from a to b, taken with the vector's entry at its local number. A span of two, the most frequent where chunks are many, is told
// apart so that the compiler writes it out without a loop.
pub(crate) fn do_span(
    sign: Sign,
    columns: Columns<'_>,
    v: &[f64],
    a: u32,
    b: u32,
    local: u32,
    y: &mut [f64],
)
    requires { SpanThere columns.rows.now (length columns.values.now) (length v.now) (length y.old) a b local }
    ensures { y.new ≡ swept_on sign y.old (landings columns.entry.rows.now columns.entry.values.now (slice_index_or v.now local nan) a b) }
{
    let x = v[wide(local)];
    let a = wide(a);
    let b = wide(b);
    if b == a + 2 {
        sweep_entries(sign, columns, x, a, a + 2, y);
        return;
    }
    sweep_entries(sign, columns, x, a, b, y);
}

// All spans in their order. In a function of its own the loop keeps its pointers in registers: inlined into the operator it takes 0.6 instructions an
// entry more on the medium problem.
#[inline(never)]
pub(crate) fn sweep_plan(
    sign: Sign,
    columns: Columns<'_>,
    v: &[f64],
    spans: Spans<'_>,
    y: &mut [f64],
)
    requires { SpansFit columns.rows.now (length columns.values.now) (length v.now) (length y.old) spans.lo.now spans.hi.now spans.local.now }
    ensures { y.new
        ≡ swept_on sign y.old
        (gather
        (span_terms (entries_only columns.entry.rows.now columns.entry.values.now) (spans_only spans.entry.lo.now spans.entry.hi.now spans.entry.local.now)
        v.now) 0 (length spans.entry.lo.now)) }
{
    // The ends and the local numbers by place: over a zip of the three lists it was not proved that what `do_span` asks is there at each turn.
    for (k, a) in spans.lo.iter().enumerate() {
        do_span(sign, columns, v, *a, spans.hi[k], spans.local[k], y);
    }
}
