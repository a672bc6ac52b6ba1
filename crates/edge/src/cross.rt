// How an answer crosses the edge. Enums cannot, so an export returns document 01's number and writes the values beside it through two numbers
// that the caller lends; 0 where there is none. These two are not among document 01's buffers.
ghost use Rattle.std.specs.Prelude.{◌≡◌};
ghost use Rattle.columns.specs.Refusals.{told, refused};
ghost use Rattle.plan.specs.Plan.{told_plan};
ghost use Rattle.edge.specs.Edge.{crossed};

use columns::refusal::Refusal;
use plan::structure::SpanCounts;

// A refusal's number, and its values.
pub fn cross_refusal(r: Refusal, first: &mut u64, second: &mut u64) -> u32
    ensures { record { number = result; first = first.new; second = second.new } ≡ crossed (refused r) }
{
    let values = r.values();
    *first = values.first as u64;
    *second = values.second as u64;
    r.number()
}

// The same of an answer without values of its own.
pub fn cross_answer(answer: Result<(), Refusal>, first: &mut u64, second: &mut u64) -> u32
    ensures { record { number = result; first = first.new; second = second.new } ≡ crossed (told answer) }
{
    match answer {
        Ok(()) => {
            *first = 0;
            *second = 0;
            0
        }
        Err(r) => cross_refusal(r, first, second),
    }
}

// The same of the plan, whose 0 has the two span counts.
pub(crate) fn cross_plan(
    planned: Result<SpanCounts, Refusal>,
    first: &mut u64,
    second: &mut u64,
) -> u32
    ensures { record { number = result; first = first.new; second = second.new } ≡ crossed (told_plan planned) }
{
    match planned {
        Ok(spans) => {
            *first = spans.kept as u64;
            *second = spans.eliminated as u64;
            0
        }
        Err(r) => cross_refusal(r, first, second),
    }
}
