// The lookups, the places of blocks and their offsets. Each list has a number for each column, or each block of a side.
use blocks::eliminated_blocks::{block_place, dof};
use blocks::partition::{
    ColSlot, eliminated_local, eliminated_offset, kept_local, kept_offset, slot,
};
use blocks::sides::Sides;

// What the lists have where a lookup finds nothing.
const NONE: u64 = 4_294_967_295;

// A number as the lists have it.
fn number_told(got: Option<usize>) -> u64 {
    got.map_or(NONE, |x| x as u64)
}

// A slot: 0 nothing, 1 kept and its local number, 2 eliminated with its block and offset.
fn slot_told(got: Option<ColSlot>) -> [u64; 3] {
    match got {
        None => [0, 0, 0],
        Some(ColSlot::Kept { local }) => [1, local as u64, 0],
        Some(ColSlot::Eliminated { block, offset }) => [2, block as u64, offset as u64],
    }
}

// Whether the slots are the expected ones.
pub(crate) fn same_slots(sides: Sides, kinds: &[u64], locals: &[u64], offsets: &[u64]) -> bool {
    let expected = kinds.iter().zip(locals.iter().zip(offsets));
    expected.enumerate().all(|(c, (kind, (local, offset)))| {
        slot_told(slot(sides, c)) == [*kind, *local, *offset]
    })
}

// What `kept_local` gives.
pub(crate) fn same_kept_locals(kept: &[u32], locals: &[u64]) -> bool {
    locals
        .iter()
        .enumerate()
        .all(|(c, local)| number_told(kept_local(kept, c)) == *local)
}

// What `eliminated_local` gives.
pub(crate) fn same_places_within(elims: &[u32], blocks: &[u64], offsets: &[u64]) -> bool {
    let expected = blocks.iter().zip(offsets);
    expected.enumerate().all(|(c, (block, offset))| {
        let got = eliminated_local(elims, c);
        got.map_or((NONE, NONE), |(b, o)| (b as u64, o as u64)) == (*block, *offset)
    })
}

// Where each eliminated block starts and ends among so many values.
pub(crate) fn same_block_places(nvalues: u64, elims: &[u32], starts: &[u64], ends: &[u64]) -> bool {
    let expected = starts.iter().zip(ends);
    expected.enumerate().all(|(b, (start, end))| {
        let place = block_place(nvalues as usize, elims, b);
        place.start as u64 == *start && end.checked_sub(*start) == Some(place.length as u64)
    })
}

// The dofs of the eliminated blocks.
pub(crate) fn same_dofs(elims: &[u32], dofs: &[u64]) -> bool {
    dofs.iter()
        .enumerate()
        .all(|(b, expected)| number_told(dof(elims, b)) == *expected)
}

// The local number of each kept block's first column.
pub(crate) fn same_kept_offsets(kept: &[u32], offsets: &[u64]) -> bool {
    offsets
        .iter()
        .enumerate()
        .all(|(b, offset)| number_told(kept_offset(kept, b)) == *offset)
}

// The map's number of each eliminated block's first column, which counts the kept dof too.
pub(crate) fn same_eliminated_offsets(elims: &[u32], firsts: &[u64], kept_dof: u64) -> bool {
    firsts.iter().enumerate().all(|(b, first)| {
        eliminated_offset(elims, b).is_some_and(|x| first.checked_sub(kept_dof) == Some(x as u64))
    })
}
