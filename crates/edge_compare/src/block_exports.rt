// The calls of `partition`.
ghost use Rattle.std.specs.Prelude.{◌≡◌, length};
ghost use Rattle.columns.specs.Columns.{columns_of};
ghost use Rattle.blocks.specs.Claims.{check_blocks};
ghost use Rattle.blocks.specs.Lookups.{local_in, within_in, slot_of};
ghost use Rattle.blocks.specs.Access.{block_place};
ghost use Rattle.blocks.specs.BlockValues.{gather_from_jacobian, damp_values};
ghost use Rattle.blocks.specs.Damping.{diagonal_term};
ghost use Rattle.edge_compare.specs.Compare.{term_export, map_export, values_export, looked, number_looked, within_looked, slot_looked, place_looked};
ghost use Rattle.edge.specs.Edge.{Crossed};

use crate::cross::{cross_float, cross_number, cross_place, cross_slot, cross_within};
use blocks::check::check_blocks;
use blocks::damping::Damping;
use blocks::eliminated_blocks::{block_place, damp, gather_from_jacobian};
use blocks::partition::{eliminated_local, kept_local, slot};
use blocks::sides::Sides;
use columns::lent::Columns;
use edge::cross::cross_answer;

// Checks columns and blocks, and fills the map.
pub fn pivotfern_check_blocks(
    nrows: usize,
    ptrs: &[u32],
    rows: &[u32],
    values: &[f64],
    kept: &[u32],
    elims: &[u32],
    map: &mut [u32],
    first: &mut u64,
    second: &mut u64,
) -> u32
    ensures { let m = columns_of nrows ptrs.now rows.now values.now in
        let told : Crossed = record { number = result; first = first.new; second = second.new } in
        record { told = told; left = map.new } ≡ map_export (check_blocks m kept.now elims.now map.old) }
{
    let columns = Columns {
        nrows,
        ptrs,
        rows,
        values,
    };
    let sides = Sides { kept, elims };
    let answer = check_blocks(columns, sides, map);
    cross_answer(answer, first, second)
}

// Where a column stands: 0 nothing; 1 and its local number; 2, its block and its offset there.
pub fn pivotfern_slot(
    kept: &[u32],
    elims: &[u32],
    column: usize,
    first: &mut u64,
    second: &mut u64,
) -> u32
    ensures { looked result first.new second.new ≡ slot_looked (slot_of kept.now elims.now column) }
{
    let sides = Sides { kept, elims };
    let answer = slot(sides, column);
    cross_slot(answer, first, second)
}

// The same, of the kept list alone.
pub fn pivotfern_kept_local(kept: &[u32], column: usize, first: &mut u64, second: &mut u64) -> u32
    ensures { looked result first.new second.new ≡ number_looked (local_in kept.now column) }
{
    let answer = kept_local(kept, column);
    cross_number(answer, first, second)
}

// The same, of the eliminated list alone.
pub fn pivotfern_eliminated_local(
    elims: &[u32],
    column: usize,
    first: &mut u64,
    second: &mut u64,
) -> u32
    ensures { looked result first.new second.new ≡ within_looked (within_in elims.now column) }
{
    let answer = eliminated_local(elims, column);
    cross_within(answer, first, second)
}

// Where block `number` stands among the values: start and length. The part itself cannot cross.
pub fn pivotfern_block(
    values: &[f64],
    elims: &[u32],
    number: usize,
    first: &mut u64,
    second: &mut u64,
) -> u32
    ensures { looked result first.new second.new
        ≡ place_looked (block_place (length values.now) elims.now number) }
{
    let answer = block_place(values.len(), elims, number);
    cross_place(answer, first, second)
}

// The diagonal blocks of the eliminated side.
pub fn pivotfern_gather_from_jacobian(
    nrows: usize,
    ptrs: &[u32],
    rows: &[u32],
    values: &[f64],
    kept: &[u32],
    elims: &[u32],
    map: &mut [u32],
    out: &mut [f64],
    first: &mut u64,
    second: &mut u64,
) -> u32
    ensures { let m = columns_of nrows ptrs.now rows.now values.now in
        let told : Crossed = record { number = result; first = first.new; second = second.new } in
        record { told = told; left = (map.new, out.new) }
        ≡ values_export (gather_from_jacobian m kept.now elims.now map.old out.old) }
{
    let columns = Columns {
        nrows,
        ptrs,
        rows,
        values,
    };
    let sides = Sides { kept, elims };
    let answer = gather_from_jacobian(columns, sides, map, out);
    cross_answer(answer, first, second)
}

// Adds the damping to every block's diagonal.
pub fn pivotfern_damp(
    nrows: usize,
    ptrs: &[u32],
    rows: &[u32],
    values: &[f64],
    kept: &[u32],
    elims: &[u32],
    map: &mut [u32],
    lambda: f64,
    min: f64,
    max: f64,
    out: &mut [f64],
    first: &mut u64,
    second: &mut u64,
) -> u32
    ensures { let m = columns_of nrows ptrs.now rows.now values.now in
        let told : Crossed = record { number = result; first = first.new; second = second.new } in
        record { told = told; left = (map.new, out.new) }
        ≡ values_export
        (damp_values m kept.now elims.now map.old (record { lambda = lambda; min = min; max = max }) out.old) }
{
    let columns = Columns {
        nrows,
        ptrs,
        rows,
        values,
    };
    let sides = Sides { kept, elims };
    let damping = Damping { lambda, min, max };
    let answer = damp(columns, sides, map, damping, out);
    cross_answer(answer, first, second)
}

// What damping adds to a diagonal value, through `res`, which stays as it was after a refusal.
pub fn pivotfern_diagonal_term(
    lambda: f64,
    min: f64,
    max: f64,
    value: f64,
    res: &mut f64,
    first: &mut u64,
    second: &mut u64,
) -> u32
    ensures { let told : Crossed = record { number = result; first = first.new; second = second.new } in
        record { told = told; left = res.new }
        ≡ term_export (diagonal_term (record { lambda = lambda; min = min; max = max }) value) res.old }
{
    let damping = Damping { lambda, min, max };
    cross_float(damping.diagonal_term(value), res, first, second)
}
