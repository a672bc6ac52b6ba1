// The update of all columns from the kept side's and the eliminated one's.
#![tactic(auto, using(crate::proofs::LentRules::lending))]

ghost use Rattle.std.specs.Prelude.{◌≡◌, length};
ghost use Rattle.ground.specs.Gather.{list_of};
ghost use Rattle.columns.specs.Refusals.{told};
ghost use Rattle.columns.specs.Lent.{seen};
ghost use Rattle.products.specs.Couplings.{combine_updates};
ghost use Rattle.products.specs.LentCalls.{update_by, UpdateFits, UpdatesFit};

use crate::coupling::check_lengths;
use crate::side_sums::side_dof;
use blocks::check::check_blocks;
use blocks::sides::Sides;
use columns::lent::Columns;
use columns::refusal::Refusal;
use ground::wide;

// Column c's entry, which the map names: of the kept update, or past its length of the eliminated one.
fn update_at(map: &[u32], kept_update: &[f64], elims_update: &[f64], c: usize) -> f64
    requires { UpdateFits map.now (length kept_update.now) (length elims_update.now) c }
    ensures { result ≡ update_by map.now kept_update.now elims_update.now c }
{
    let place = wide(map[c]);
    if place < kept_update.len() {
        return kept_update[place];
    }
    elims_update[place - kept_update.len()]
}

// One pass over the columns.
fn put_updates(map: &[u32], kept_update: &[f64], elims_update: &[f64], out: &mut [f64])
    requires { UpdatesFit map.now (length kept_update.now) (length elims_update.now) (length out.old) }
    ensures { out.new
        ≡ list_of (update_by map.now kept_update.now elims_update.now) (length out.old) }
{
    for (c, x) in out.iter_mut().enumerate() {
        *x = update_at(map, kept_update, elims_update, c);
    }
}

// Puts kept and eliminated entries back at their columns.
pub fn combine_updates(
    columns: Columns<'_>,
    sides: Sides<'_>,
    map: &mut [u32],
    kept_update: &[f64],
    elims_update: &[f64],
    out: &mut [f64],
) -> Result<(), Refusal>
    ensures { let m = seen columns.entry in
        record { told = told result; map = map.new; out = out.new }
        ≡ combine_updates m sides.entry.kept.now sides.entry.elims.now map.old kept_update.now elims_update.now
        out.old }
{
    check_blocks(columns, sides, map)?;
    let n = columns.count();
    let lengths = [
        kept_update.len(),
        side_dof(sides.kept),
        elims_update.len(),
        side_dof(sides.elims),
        out.len(),
        n,
    ];
    check_lengths(&lengths, n, map)?;
    put_updates(map, kept_update, elims_update, out);
    Ok(())
}
