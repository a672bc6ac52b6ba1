// The products that need no plan: the block inverses, the couplings and the update. Each call gets what its problem and its case have, and
// results exactly as long as the expected ones; its map is two places longer than the columns.
use crate::lists::{floats, room, same};
use crate::problem::Problem;
use blocks::sides::Sides;
use columns::lent::Columns;
use columns::refusal::Refusal;
use products::coupling::{apply_eliminated_inverse, coupling_times, coupling_transpose_times};
use products::update::combine_updates;
use std::alloc::{AllocError, Global};

// The block inverses: the vector and the result.
pub(crate) fn same_inverse(
    alloc: Global,
    p: &Problem,
    b: &[u32],
    out: &[u32],
) -> Result<bool, AllocError> {
    let b = floats(alloc, b)?;
    let mut map = p.map_room(alloc)?;
    let mut got = room(alloc, out)?;
    let answer = apply_eliminated_inverse(
        p.columns(),
        p.sides,
        &mut map,
        &b,
        &p.inverses,
        &mut got,
    );
    Ok(answer.is_ok() && p.same_map(&map) && same(&got, out))
}

// A coupling product, which `couple` makes of a vector with the map, the rows and the result that it is lent: the rows and the result.
fn same_coupled<
    F: FnOnce(Columns, Sides, &mut [u32], &[f64], &mut [f64], &mut [f64]) -> Result<(), Refusal>,
>(
    alloc: Global,
    p: &Problem,
    v: &[f64],
    rows: &[u32],
    out: &[u32],
    couple: F,
) -> Result<bool, AllocError>
    requires { F.IsAlwaysCallable couple }
{
    let mut map = p.map_room(alloc)?;
    let mut got_rows = room(alloc, rows)?;
    let mut got = room(alloc, out)?;
    let answer = couple(p.columns(), p.sides, &mut map, v, &mut got_rows, &mut got);
    Ok(answer.is_ok() && p.same_map(&map) && same(&got_rows, rows) && same(&got, out))
}

// The coupling, of the eliminated side's vector.
pub(crate) fn same_coupling(
    alloc: Global,
    p: &Problem,
    rows: &[u32],
    out: &[u32],
) -> Result<bool, AllocError> {
    same_coupled(alloc, p, &p.elims.v, rows, out, coupling_times)
}

// Its transpose, of the kept side's vector.
pub(crate) fn same_transpose(
    alloc: Global,
    p: &Problem,
    rows: &[u32],
    out: &[u32],
) -> Result<bool, AllocError> {
    same_coupled(alloc, p, &p.kept.v, rows, out, coupling_transpose_times)
}

// The update: the kept side's, the eliminated one's, and all columns'.
pub(crate) fn same_update(
    alloc: Global,
    p: &Problem,
    kept: &[u32],
    elims: &[u32],
    out: &[u32],
) -> Result<bool, AllocError> {
    let kept = floats(alloc, kept)?;
    let elims = floats(alloc, elims)?;
    let mut map = p.map_room(alloc)?;
    let mut got = room(alloc, out)?;
    let answer = combine_updates(p.columns(), p.sides, &mut map, &kept, &elims, &mut got);
    Ok(answer.is_ok() && p.same_map(&map) && same(&got, out))
}
