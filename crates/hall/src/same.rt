// Comparing what a call gave with the tables.
ghost use Rattle.std.specs.Prelude.{◌≡◌, ◌∷◌, []};
ghost use Rattle.columns.specs.Refusals.{told, refused};
ghost use Rattle.columns.specs.JacobianOps.{dotted};
ghost use Rattle.plan.specs.Plan.{told_plan};
ghost use Rattle.hall.specs.Same.{agree, same_floats, numbers_of};

use crate::tables::DONE;
use columns::refusal::Refusal;
use plan::structure::SpanCounts;
use std::num::f64_to_bits_with_nan;

// Whether two lists of floats have the same bits at each place that both have.
fn agree(got: &[f64], expected: &[f64]) -> bool
    ensures { result ≡ agree got.now expected.now }
{
    got.iter().zip(expected).all(|(x, y)| f64_to_bits_with_nan(*x) == f64_to_bits_with_nan(*y))
}

// Whether a list of floats is the expected one, bit for bit.
pub(crate) fn same_floats(got: &[f64], expected: &[f64]) -> bool
    ensures { result ≡ same_floats got.now expected.now }
{
    (got.len() == expected.len()) & agree(got, expected)
}

// What a call tells: document 01's number, how many values go with it, and two of them, 0 where there is none. Numbers, where a call gives enums:
// the tables' public constants and `numbers_of` have document 01's own figures, which are numbers.
#[derive(Clone, Copy, PartialEq, Eq)]
pub struct Numbers {
    pub number: u32,
    pub count: usize,
    pub first: usize,
    pub second: usize,
}

// Those of a refusal.
impl From<Refusal> for Numbers {
    ghost from_gives = { λ r n. n ≡ numbers_of (refused r) };

    fn from(refusal: Refusal) -> Numbers {
        let values = refusal.values();
        Numbers {
            number: refusal.number(),
            count: values.count,
            first: values.first,
            second: values.second,
        }
    }
}

// Those of an answer without values of its own.
impl From<Result<(), Refusal>> for Numbers {
    ghost from_gives = { λ a n. n ≡ numbers_of (told a) };

    fn from(answer: Result<(), Refusal>) -> Numbers {
        match answer {
            Ok(()) => DONE,
            Err(r) => Numbers::from(r),
        }
    }
}

// Those of planning, which answers 0 with the span counts.
impl From<Result<SpanCounts, Refusal>> for Numbers {
    ghost from_gives = { λ a n. n ≡ numbers_of (told_plan a) };

    fn from(answer: Result<SpanCounts, Refusal>) -> Numbers {
        match answer {
            Ok(spans) => Numbers {
                number: 0,
                count: 2,
                first: spans.kept,
                second: spans.eliminated,
            },
            Err(r) => Numbers::from(r),
        }
    }
}

// Whether `column_dot` answered this sum.
pub(crate) fn is_sum(dot: Result<f64, Refusal>, sum: f64) -> bool
    ensures { result ≡ same_floats (dotted dot).sums (sum ∷ []) }
{
    dot.is_ok_and(|x| same_floats(&[x], &[sum]))
}
