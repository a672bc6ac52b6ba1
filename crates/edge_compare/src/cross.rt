// How the answers cross that have more than a number and two values, or are those of a lookup.
ghost use Rattle.std.specs.Prelude.{◌≡◌};
ghost use Rattle.columns.specs.JacobianOps.{dotted};
ghost use Rattle.products.specs.Side.{eliminated};
ghost use Rattle.edge_compare.specs.Compare.{dot_export, by_number, looked, number_looked, within_looked, slot_looked, place_looked};
ghost use Rattle.edge.specs.Edge.{Crossed};

use blocks::eliminated_blocks::Place;
use blocks::partition::ColSlot;
use columns::refusal::{Refusal, Side};
use edge::cross::{cross_answer, cross_refusal};

// A number, or a refusal that leaves `res` as it was.
pub(crate) fn cross_float(
    answer: Result<f64, Refusal>,
    res: &mut f64,
    first: &mut u64,
    second: &mut u64,
) -> u32
    ensures { let told : Crossed = record { number = result; first = first.new; second = second.new } in
        record { told = told; left = res.new } ≡ dot_export (dotted answer) res.old }
{
    match answer {
        Ok(x) => {
            *res = x;
            cross_answer(Ok(()), first, second)
        }
        Err(r) => cross_refusal(r, first, second),
    }
}

// A lookup's kind, and its two numbers.
fn cross_looked(kind: u32, a: usize, b: usize, first: &mut u64, second: &mut u64) -> u32
    ensures { looked result first.new second.new ≡ looked kind a b }
{
    *first = a as u64;
    *second = b as u64;
    kind
}

// A number, where there is one.
pub(crate) fn cross_number(number: Option<usize>, first: &mut u64, second: &mut u64) -> u32
    ensures { looked result first.new second.new ≡ number_looked number }
{
    match number {
        Some(local) => cross_looked(1, local, 0, first, second),
        None => cross_looked(0, 0, 0, first, second),
    }
}

// A place in a block, where there is one.
pub(crate) fn cross_within(within: Option<(usize, usize)>, first: &mut u64, second: &mut u64) -> u32
    ensures { looked result first.new second.new ≡ within_looked within }
{
    match within {
        Some((block, offset)) => cross_looked(2, block, offset, first, second),
        None => cross_looked(0, 0, 0, first, second),
    }
}

// Either of these.
pub(crate) fn cross_slot(slot: Option<ColSlot>, first: &mut u64, second: &mut u64) -> u32
    ensures { looked result first.new second.new ≡ slot_looked slot }
{
    match slot {
        Some(ColSlot::Kept { local }) => cross_looked(1, local, 0, first, second),
        Some(ColSlot::Eliminated { block, offset }) => {
            cross_looked(2, block, offset, first, second)
        }
        None => cross_looked(0, 0, 0, first, second),
    }
}

// A part of a slice, by its start and its length.
pub(crate) fn cross_place(place: Place, first: &mut u64, second: &mut u64) -> u32
    ensures { looked result first.new second.new ≡ place_looked place }
{
    cross_looked(0, place.start, place.length, first, second)
}

// The side that a number names.
pub(crate) fn side_of(number: u32) -> Side
    ensures { eliminated result ≡ by_number number }
{
    if number == 0 {
        return Side::Kept;
    }
    Side::Eliminated
}
