// The calls that need no plan and take a vector from one side to the other: the block inverses times a vector, and the coupling products
// `FᵀE` and `EᵀF` times one, which are never formed. Each checks what it is lent, and a refused call leaves its results as they were.
#![tactic(auto, using(crate::proofs::LentRules::lending))]

ghost use Rattle.std.specs.Prelude.{◌≡◌, true, false, length};
ghost use Rattle.columns.specs.Refusals.{told};
ghost use Rattle.columns.specs.Lent.{seen, over};
ghost use Rattle.products.specs.Couplings.{apply_eliminated_inverse, coupling};
ghost use Rattle.products.specs.LentCalls.{check_lengths, coupled, CouplingFits};
ghost use Rattle.products.specs.Side.{eliminated};

use crate::side::{Side, chosen, other};
use crate::side_sums::{gather_side, inverse_times, side_dof, sweep_side};
use blocks::check::{check_blocks, mark_map};
use blocks::eliminated_blocks::count_values;
use blocks::sides::Sides;
use columns::jacobian_ops::clear;
use columns::lent::Columns;
use columns::refusal::{Refusal, wrong_length};
use columns::unchecked::Sign;

// The lengths of what a call is lent whose blocks have passed. A refusal marks the map, as every one after the sixth does.
pub(crate) fn check_lengths(pairs: &[usize], n: usize, map: &mut [u32]) -> Result<(), Refusal>
    ensures { record { told = told result; map = map.new } ≡ check_lengths pairs.now n map.old }
{
    if let Err(refusal) = wrong_length(pairs) {
        mark_map(map, n);
        return Err(refusal);
    }
    Ok(())
}

// The block inverses times b.
pub fn apply_eliminated_inverse(
    columns: Columns<'_>,
    sides: Sides<'_>,
    map: &mut [u32],
    b: &[f64],
    inverses: &[f64],
    out: &mut [f64],
) -> Result<(), Refusal>
    ensures { let m = seen columns.entry in
        record { told = told result; map = map.new; out = out.new }
        ≡ apply_eliminated_inverse m sides.entry.kept.now sides.entry.elims.now map.old b.now inverses.now
        out.old }
{
    check_blocks(columns, sides, map)?;
    let dof = side_dof(sides.elims);
    let lengths = [
        b.len(),
        dof,
        inverses.len(),
        count_values(sides.elims),
        out.len(),
        dof,
    ];
    check_lengths(&lengths, columns.count(), map)?;
    inverse_times(sides.elims, inverses, b, out);
    Ok(())
}

// Past the checks: one side swept with v onto rows of +0.0, and the other gathered from them.
fn couple(columns: Columns<'_>, from: &[u32], to: &[u32], v: &[f64], y: &mut [f64], out: &mut [f64])
    requires { CouplingFits (over (length y.old) columns) from.now to.now (length v.now) (length out.old) }
    ensures { let m = over (length y.old) columns.entry in
        record { rows = y.new; out = out.new } ≡ coupled m from.now to.now v.now }
{
    clear(y);
    sweep_side(Sign::Plus, columns, from, v, y);
    gather_side(columns, to, y, 0.0, out);
}

// A coupling product: the side `from` is swept with v, and the other one gathered.
fn couple_sides(
    from: Side,
    columns: Columns<'_>,
    sides: Sides<'_>,
    map: &mut [u32],
    v: &[f64],
    y: &mut [f64],
    out: &mut [f64],
) -> Result<(), Refusal>
    ensures { let m = seen columns.entry in
        record { told = told result; map = map.new; rows = y.new; out = out.new }
        ≡ coupling (eliminated from) m sides.entry.kept.now sides.entry.elims.now map.old v.now y.old out.old }
{
    check_blocks(columns, sides, map)?;
    let swept = chosen(from, sides);
    let gathered = chosen(other(from), sides);
    let lengths = [
        v.len(),
        side_dof(swept),
        y.len(),
        columns.nrows,
        out.len(),
        side_dof(gathered),
    ];
    check_lengths(&lengths, columns.count(), map)?;
    couple(columns, swept, gathered, v, y, out);
    Ok(())
}

// The coupling of the eliminated side with the kept one times u, over the eliminated columns: the result is over the kept ones.
pub fn coupling_times(
    columns: Columns<'_>,
    sides: Sides<'_>,
    map: &mut [u32],
    u: &[f64],
    y: &mut [f64],
    out: &mut [f64],
) -> Result<(), Refusal>
    ensures { let m = seen columns.entry in
        record { told = told result; map = map.new; rows = y.new; out = out.new }
        ≡ coupling true m sides.entry.kept.now sides.entry.elims.now map.old u.now y.old out.old }
{
    couple_sides(Side::Eliminated, columns, sides, map, u, y, out)
}

// Its transpose times v, over the kept columns: the result is over the eliminated ones.
pub fn coupling_transpose_times(
    columns: Columns<'_>,
    sides: Sides<'_>,
    map: &mut [u32],
    v: &[f64],
    y: &mut [f64],
    out: &mut [f64],
) -> Result<(), Refusal>
    ensures { let m = seen columns.entry in
        record { told = told result; map = map.new; rows = y.new; out = out.new }
        ≡ coupling false m sides.entry.kept.now sides.entry.elims.now map.old v.now y.old out.old }
{
    couple_sides(Side::Kept, columns, sides, map, v, y, out)
}
