// Where a column stands, asked of lists that nobody has checked: nothing here refuses or asks anything of its lists. The layers above go by
// the column map, which answers in one read; these are for callers that have no map.
#![tactic(auto, using(crate::proofs::LookupRules::lookups))]

ghost use Rattle.std.specs.Prelude.{◌≡◌, ◌*◌, ◌-◌, ◌≤◌, length};
ghost use Rattle.blocks.specs.Sides.{first_of, dof_of, offset_of};
ghost use Rattle.blocks.specs.Lookups.{asked, holds, holder, local_in, within_in, slot_of, offset_in, BlockThere, HeldBy, BlocksThere};

use crate::check::MOST_BLOCKS;
use crate::sides::Sides;
use ground::wide;

// Which side a column is on, and where there.
#[derive(Clone, Copy)]
pub enum ColSlot {
    Kept { local: usize },
    Eliminated { block: usize, offset: usize },
}

// How many blocks are asked: none of a list past the limit.
pub(crate) fn asked_blocks(side: &[u32]) -> usize
    ensures { result ≡ asked side.now }
{
    let n = side.len() / 2;
    if n > MOST_BLOCKS {
        return 0;
    }
    n
}

// Block b's first column.
pub(crate) fn first_column(side: &[u32], b: usize) -> usize
    requires { BlockThere (length side.now) b }
    ensures value { result ≡ first_of side.now b }
    ensures upper_bound { result ≤ 4_294_967_295 }
{
    wide(side[b + b])
}

// Block b's dof.
pub(crate) fn block_dof(side: &[u32], b: usize) -> usize
    requires { BlockThere (length side.now) b }
    ensures value { result ≡ dof_of side.now b }
    ensures upper_bound { result ≤ 4_294_967_295 }
{
    wide(side[b + b + 1])
}

// Whether the column is one of block b's. The end of a block may pass 32 bits.
fn holds_column(side: &[u32], column: usize, b: usize) -> bool
    requires { BlockThere (length side.now) b }
    ensures { result ≡ holds side.now column b }
{
    let start = first_column(side, b);
    let dof = block_dof(side, b);
    start <= column && column < start + dof
}

// The first block that holds the column, or n.
fn holding_block(side: &[u32], column: usize) -> usize
    ensures { result ≡ holder side.now column }
{
    let n = asked_blocks(side);
    // By number, which is the answer. With `find` it was not proved that each block that the closure asks for is there.
    for b in 0..n {
        if holds_column(side, column, b) {
            return b;
        }
    }
    n
}

// The dofs before block b. There are few enough blocks that their sum fits.
fn dofs_before(side: &[u32], b: usize) -> usize
    requires { BlocksThere (length side.now) b }
    ensures value { result ≡ offset_of side.now b }
    ensures upper_bound { result ≤ b * 4_294_967_295 }
{
    let mut sum: usize = 0;
    // By number: what is asked is how much stands before the b-th block.
    for k in 0..b {
        sum = sum + block_dof(side, k);
    }
    sum
}

// How far the column is from the first of block b, which holds it: less than the dof, so it has 32 bits.
fn offset_within(side: &[u32], column: usize, b: usize) -> usize
    requires { HeldBy side.now column b }
    ensures value { result ≡ column - first_of side.now b }
    ensures upper_bound { result ≤ 4_294_967_295 }
{
    column - wide(side[b + b])
}

fn local_number(side: &[u32], column: usize) -> Option<usize>
    ensures { result ≡ local_in side.now column }
{
    let b = holding_block(side, column);
    if b < asked_blocks(side) {
        return Some(dofs_before(side, b) + offset_within(side, column, b));
    }
    None
}

// The column's local number among the kept, if it is kept.
pub fn kept_local(kept: &[u32], column: usize) -> Option<usize>
    ensures { result ≡ local_in kept.now column }
{
    local_number(kept, column)
}

// The column's eliminated block and its offset there, if it is eliminated.
pub fn eliminated_local(elims: &[u32], column: usize) -> Option<(usize, usize)>
    ensures { result ≡ within_in elims.now column }
{
    let b = holding_block(elims, column);
    if b < asked_blocks(elims) {
        return Some((b, offset_within(elims, column, b)));
    }
    None
}

// Where the column stands: the kept blocks are asked first.
pub fn slot(sides: Sides, column: usize) -> Option<ColSlot>
    ensures { result ≡ slot_of sides.entry.kept.now sides.entry.elims.now column }
{
    if let Some(local) = kept_local(sides.kept, column) {
        return Some(ColSlot::Kept { local });
    }
    let (block, offset) = eliminated_local(sides.elims, column)?;
    Some(ColSlot::Eliminated { block, offset })
}

fn block_offset(side: &[u32], b: usize) -> Option<usize>
    ensures { result ≡ offset_in side.now b }
{
    if b < asked_blocks(side) {
        return Some(dofs_before(side, b));
    }
    None
}

// The local number of a kept block's first column.
pub fn kept_offset(kept: &[u32], number: usize) -> Option<usize>
    ensures { result ≡ offset_in kept.now number }
{
    block_offset(kept, number)
}

// The local number of an eliminated block's first column.
pub fn eliminated_offset(elims: &[u32], number: usize) -> Option<usize>
    ensures { result ≡ offset_in elims.now number }
{
    block_offset(elims, number)
}
