// The dense diagonal blocks of `EᵀE`, one after the other in the caller's values, each by columns: their sizes differ, so no table of equal
// rows can hold them.
#![tactic(auto, using(crate::proofs::AccessRules::access))]

ghost use Rattle.std.specs.Prelude.{◌≡◌, length};
ghost use Rattle.blocks.specs.Lookups.{BlockThere, BlocksThere};
ghost use Rattle.columns.specs.Refusals.{told};
ghost use Rattle.columns.specs.Lent.{seen};
ghost use Rattle.blocks.specs.BlockValues.{value_count, check_values, gather_from_jacobian, damp_values, Limited};
ghost use Rattle.blocks.specs.Access.{square_of, squares_before, block_place, block_part, dof_in, entry_in_of, up_to};

use crate::block_values::{damp_blocks, gather_blocks};
use crate::check::{check_blocks, mark_map};
use crate::damping::Damping;
use crate::partition::{asked_blocks, block_dof};
use crate::sides::Sides;
use columns::lent::Columns;
use columns::refusal::{Refusal, wrong_length};

// No more than 65,536 blocks of no more than 65,536 columns have more values.
const MOST_VALUES: usize = 281_474_976_710_656;

// A part of a slice.
#[derive(Clone, Copy)]
pub struct Place {
    pub start: usize,
    pub length: usize,
}

// The part that a block has which is not there.
const NO_PLACE: Place = Place {
    start: 0,
    length: 0,
};

// How many values block b has. A dof has 32 bits, so its square fits 64.
fn block_square(elims: &[u32], b: usize) -> usize
    requires { BlockThere (length elims.now) b }
    ensures { result ≡ square_of elims.now b }
{
    let dof = block_dof(elims, b);
    dof * dof
}

// The squares before block b, where they are no more than `most`: two of them may pass 64 bits.
fn squares_before(elims: &[u32], b: usize, most: usize) -> Option<usize>
    requires { BlocksThere (length elims.now) b }
    ensures { result ≡ up_to most (squares_before elims.now b) }
{
    let mut sum: usize = 0;
    // By number: what is asked is how much stands before the b-th block.
    for k in 0..b {
        let square = block_square(elims, k);
        if square > most - sum {
            return None;
        }
        sum += square;
    }
    Some(sum)
}

// How many values all blocks have, where the blocks are within the limits.
pub fn count_values(elims: &[u32]) -> usize
    requires { Limited elims.now }
    ensures { result ≡ value_count elims.now }
{
    squares_before(elims, elims.len() / 2, MOST_VALUES).unwrap_or(0)
}

// Which part of n values block `number` is; an empty part for a number past the list, or where the values are too few.
pub fn block_place(nvalues: usize, elims: &[u32], number: usize) -> Place
    ensures { result ≡ block_place nvalues elims.now number }
{
    if number >= asked_blocks(elims) {
        return NO_PLACE;
    }
    let Some(start) = squares_before(elims, number, nvalues) else {
        return NO_PLACE;
    };
    let length = block_square(elims, number);
    if length > nvalues - start {
        return NO_PLACE;
    }
    Place { start, length }
}

// The values of block `number`, by columns.
pub fn block<'a>(values: &'a [f64], elims: &[u32], number: usize) -> &'a [f64]
    ensures { result.now ≡ block_part values.now elims.now number }
{
    let place = block_place(values.len(), elims, number);
    let from = place.start;
    let to = from + place.length;
    &values[from..to]
}

// The dof of block `number`.
pub fn dof(elims: &[u32], number: usize) -> Option<usize>
    ensures { result ≡ dof_in elims.now number }
{
    if number < asked_blocks(elims) {
        return Some(block_dof(elims, number));
    }
    None
}

// Row `row`, column `col` of block `number`. A block whose part is empty has no entry.
pub fn at(values: &[f64], elims: &[u32], number: usize, row: usize, col: usize) -> Option<f64>
    ensures { result ≡ entry_in_of values.now elims.now number row col }
{
    let place = block_place(values.len(), elims, number);
    if place.length == 0 {
        return None;
    }
    let d = block_dof(elims, number);
    if row >= d {
        return None;
    }
    if col >= d {
        return None;
    }
    Some(values[place.start + (col * d + row)])
}

// The checks of a call that is lent n block values, and the map that they leave: columns and blocks, then the values' length, then what else
// the call has checked.
fn check_values(
    columns: Columns,
    sides: Sides,
    map: &mut [u32],
    n: usize,
    more: Result<(), Refusal>,
) -> Result<(), Refusal>
    ensures { record { told = told result; map = map.new }
        ≡ check_values (seen columns.entry) sides.entry.kept.now sides.entry.elims.now map.old n (told more) }
{
    check_blocks(columns, sides, map)?;
    if let Err(refusal) = wrong_length(&[n, count_values(sides.elims)]).and(more) {
        mark_map(map, columns.count());
        return Err(refusal);
    }
    Ok(())
}

// The diagonal blocks of `EᵀE`, straight from the columns: row r, column c of a block is the dot of its columns r and c.
pub fn gather_from_jacobian(
    columns: Columns,
    sides: Sides,
    map: &mut [u32],
    block_values: &mut [f64],
) -> Result<(), Refusal>
    ensures { record { told = told result; map = map.new; values = block_values.new }
        ≡ gather_from_jacobian (seen columns.entry) sides.entry.kept.now sides.entry.elims.now map.old block_values.old }
{
    check_values(columns, sides, map, block_values.len(), Ok(()))?;
    gather_blocks(columns, sides.elims, block_values);
    Ok(())
}

// Adds `λ·D` to every block's diagonal, where D is the diagonal clamped.
pub fn damp(
    columns: Columns,
    sides: Sides,
    map: &mut [u32],
    damping: Damping,
    block_values: &mut [f64],
) -> Result<(), Refusal>
    ensures { record { told = told result; map = map.new; values = block_values.new }
        ≡ damp_values (seen columns.entry) sides.entry.kept.now sides.entry.elims.now map.old damping block_values.old }
{
    check_values(columns, sides, map, block_values.len(), damping.check())?;
    damp_blocks(damping, sides.elims, block_values);
    Ok(())
}
