// The check of both sides' blocks against the columns, refusals 1 to 4 and 6 to 9, and the map that it fills: from a column to its place
// among the kept columns, or past them among the eliminated ones. No sum of dofs is formed: the walk stops at the first column that does
// not exist or is taken, so however wild the numbers are nothing overflows.
ghost use Rattle.std.specs.Prelude.{◌≡◌, ◌≤◌, length};
ghost use Rattle.ground.specs.First.{first};
ghost use Rattle.columns.specs.Refusals.{told};
ghost use Rattle.columns.specs.Lent.{seen};
ghost use Rattle.blocks.specs.Claims.{too_many, is_odd, lists_told, empty_side, parts_told, early_told, block_claims, side_claims, claims, marked};
ghost use Rattle.blocks.specs.Claims.{check_blocks};
ghost use Rattle.blocks.specs.Walk.{found, is_free_of, through, walk_of, walked, walk_blocks, Room, BlockWalks, Roomy, Tried};

use crate::owner::Owner;
use crate::sides::Sides;
use columns::check::check_columns;
use columns::lent::Columns;
use columns::refusal::{Refusal, Side, no_room, sooner};
use ground::wide;

pub(crate) const MOST_BLOCKS: usize = 65_536;

#[tactic(auto, unfolding(crate::specs::Claims::too_many))]
fn too_many(side: &[u32]) -> bool
    ensures { result ≡ too_many side.now }
{
    side.len() / 2 > MOST_BLOCKS
}

#[tactic(auto, unfolding(crate::specs::Claims::is_odd))]
fn is_odd(side: &[u32]) -> bool
    ensures { result ≡ is_odd side.now }
{
    side.len() % 2 != 0
}

// Refusals 1 and 2 of the block lists alone.
#[tactic(auto, unfolding(crate::specs::Claims::lists_told))]
fn check_lists(sides: Sides) -> Result<(), Refusal>
    ensures { told result ≡ lists_told sides.entry.kept.now sides.entry.elims.now }
{
    if too_many(sides.kept) || too_many(sides.elims) {
        return Err(Refusal::TooBig);
    }
    if is_odd(sides.kept) || is_odd(sides.elims) {
        return Err(Refusal::BadShape);
    }
    Ok(())
}

// Refusal 4: a side without a block, kept first.
#[tactic(auto, unfolding(crate::specs::Claims::empty_side))]
fn empty_side(sides: Sides) -> Result<(), Refusal>
    ensures { told result ≡ empty_side sides.entry.kept.now sides.entry.elims.now }
{
    if sides.kept.len() / 2 == 0 {
        return Err(Refusal::EmptySide {
            side: Side::Kept.number(),
        });
    }
    if sides.elims.len() / 2 == 0 {
        return Err(Refusal::EmptySide {
            side: Side::Eliminated.number(),
        });
    }
    Ok(())
}

// Refusals 1 to 4, and then what the call has found before it changes a byte: its chunk length and its buffers' room.
pub fn check_parts(columns: Columns, sides: Sides, rest: Result<(), Refusal>) -> Result<(), Refusal>
    ensures { told result ≡ parts_told (seen columns.entry) sides.entry.kept.now sides.entry.elims.now (told rest) }
{
    sooner(check_columns(columns), check_lists(sides))?;
    empty_side(sides)?;
    rest
}

// Refusals 1 to 6, after which no byte changes.
fn check_early(columns: Columns, sides: Sides, map: &[u32]) -> Result<(), Refusal>
    ensures { told result ≡ early_told (seen columns.entry) sides.entry.kept.now sides.entry.elims.now map.now }
{
    check_parts(columns, sides, no_room(&[map.len(), columns.count()]))
}

// Puts the mark into the first n places of a map, or all of them where it has fewer: what a refusal after the sixth leaves.
pub fn mark_map(map: &mut [u32], n: usize)
    ensures { map.new ≡ marked n map.old }
{
    let places = n.min(map.len());
    map[..places].fill(Owner::NONE);
}

// The first of n places that holds the mark, if one does.
fn first_free(map: &[u32], n: usize) -> Option<usize>
    requires { n ≤ length map.now }
    ensures { result ≡ found n (first (is_free_of map.now) 0 n) }
{
    for (c, place) in map[..n].iter().enumerate() {
        if *place == Owner::NONE {
            return Some(c);
        }
    }
    None
}

// Block b of a side claims its columns, ascending, with the local numbers from `start` on. It answers with the next local number.
fn claim_block(
    side: &[u32],
    b: usize,
    n: usize,
    start: u32,
    map: &mut [u32],
) -> Result<u32, Refusal>
    requires { BlockWalks (length side.now) b n start map.old }
    ensures { walk_of result map.new ≡ walked n (through start map.old) (block_claims n side.now b) }
{
    let first = wide(side[b + b]);
    let dof = wide(side[b + b + 1]);
    if n <= first {
        return Err(Refusal::ColumnOutOfRange { column: first });
    }
    let mut next = start;
    // By index, as a block's columns are told: by its first and how many.
    for i in 0..dof {
        let column = first + i;
        if n <= column {
            return Err(Refusal::ColumnOutOfRange { column });
        }
        if map[column] != Owner::NONE {
            return Err(Refusal::ColumnTwice { column });
        }
        map[column] = next;
        next += 1;
    }
    Ok(next)
}

// A side's blocks in their order.
fn claim_side(side: &[u32], n: usize, start: u32, map: &mut [u32]) -> Result<u32, Refusal>
    requires { Room n start map.old }
    ensures { walk_of result map.new ≡ walked n (through start map.old) (side_claims n side.now) }
{
    let mut next = start;
    // By number: a block's claims are told by its number.
    for b in 0..side.len() / 2 {
        next = claim_block(side, b, n, next, map)?;
    }
    Ok(next)
}

// The kept blocks first, then the eliminated ones.
fn claim_sides(sides: Sides, n: usize, map: &mut [u32]) -> Result<u32, Refusal>
    requires { Room n 0 map.old }
    ensures { walk_of result map.new ≡ walked n (through 0 map.old) (claims n sides.entry.kept.now sides.entry.elims.now) }
{
    let next = claim_side(sides.kept, n, 0, map)?;
    claim_side(sides.elims, n, next, map)
}

// Refusals 7 to 9; after one the map's first n places hold anything.
fn try_blocks(sides: Sides, n: usize, map: &mut [u32]) -> Result<(), Refusal>
    requires { Roomy n (length map.old) }
    ensures { Tried n (claims n sides.entry.kept.now sides.entry.elims.now) map.old (told result) map.new }
{
    mark_map(map, n);
    claim_sides(sides, n, map)?;
    match first_free(map, n) {
        Some(column) => Err(Refusal::ColumnUnclaimed { column }),
        None => Ok(()),
    }
}

// Refusals 7 to 9, and the map that they leave: for calls that have made the earlier checks.
pub fn walk_blocks(sides: Sides, n: usize, map: &mut [u32]) -> Result<(), Refusal>
    requires { Roomy n (length map.old) }
    ensures { record { told = told result; map = map.new } ≡ walk_blocks n (claims n sides.entry.kept.now sides.entry.elims.now) map.old }
{
    if let Err(refusal) = try_blocks(sides, n, map) {
        mark_map(map, n);
        return Err(refusal);
    }
    Ok(())
}

// Checks columns and blocks, and fills the map: at a kept column its local number, at an eliminated one the kept dof more than its own.
pub fn check_blocks(columns: Columns, sides: Sides, map: &mut [u32]) -> Result<(), Refusal>
    ensures { record { told = told result; map = map.new } ≡ check_blocks (seen columns.entry) sides.entry.kept.now sides.entry.elims.now map.old }
{
    check_early(columns, sides, map)?;
    walk_blocks(sides, columns.count(), map)
}
