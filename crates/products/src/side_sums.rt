// Sums over one side's columns, block by block, and the block inverses times a vector: for columns and blocks that are checked already.
#![tactic(auto, using(crate::proofs::SideRules::siding))]

ghost use Rattle.std.specs.Prelude.{◌≡◌, ◌+◌, length};
ghost use Rattle.ground.specs.Fold.{folded};
ghost use Rattle.ground.specs.Gather.{gather};
ghost use Rattle.columns.specs.Lent.{over};
ghost use Rattle.columns.specs.Sums.{zero₊, sum_from, swept_on};
ghost use Rattle.blocks.specs.Sides.{side_dof};
ghost use Rattle.blocks.specs.BlockValues.{writing, put};
ghost use Rattle.products.specs.SideSums.{side_terms, side_gather, inverse_times};
ghost use Rattle.products.specs.SideFits.{
  placed_terms,
  placed_sum,
  written,
  SideFits,
  PlacesFit,
  DofsFit,
  block_term,
  block_row,
  TermFits,
  RowFits,
  RowsFit,
  InversesFit,
};

use blocks::sides::{Block, blocks_of};
use columns::lent::Columns;
use columns::unchecked::{Sign, gather_column, sweep_column};

// A side's dof. The checks bound it, so the sum fits.
pub(crate) fn side_dof(side: &[u32]) -> usize
    requires { DofsFit side.now }
    ensures { result ≡ side_dof side.now }
{
    let mut sum: usize = 0;
    for block in blocks_of(side) {
        sum += block.dof;
    }
    sum
}

// A block's columns swept, ascending; its entries of v begin at place `at`.
fn sweep_block(sign: Sign, columns: Columns<'_>, block: Block, at: usize, v: &[f64], y: &mut [f64])
    requires { PlacesFit (over (length y.old) columns) block.first block.dof at (length v.now) }
    ensures { let m = over (length y.old) columns.entry in
        y.new
        ≡ swept_on sign y.old (gather (placed_terms m block.first at v.now) at (at + block.dof)) }
{
    // By index: an entry's place says which column is its own.
    for l in at..at + block.dof {
        sweep_column(sign, columns, v[l], block.first + (l - at), y);
    }
}

// The undivided sweep of a side: its columns in local order, each as many times as v has it.
pub(crate) fn sweep_side(sign: Sign, columns: Columns<'_>, side: &[u32], v: &[f64], y: &mut [f64])
    requires { SideFits (over (length y.old) columns) side.now (length v.now) }
    ensures { let m = over (length y.old) columns.entry in
        y.new ≡ swept_on sign y.old (side_terms m side.now v.now) }
{
    let mut at: usize = 0;
    for block in blocks_of(side) {
        sweep_block(sign, columns, block, at, v, y);
        at += block.dof;
    }
}

// A block's columns gathered from the rows y, each from `start`, to the places from `at` on.
fn gather_block(
    columns: Columns<'_>,
    block: Block,
    at: usize,
    y: &[f64],
    start: f64,
    out: &mut [f64],
)
    requires { PlacesFit (over (length y.now) columns) block.first block.dof at (length out.old) }
    ensures { let m = over (length y.now) columns.entry in
        out.new
        ≡ written (placed_sum start m block.first at y.now) at (at + block.dof) out.old }
{
    // By index: a place says which column is its own.
    for l in at..at + block.dof {
        out[l] = gather_column(columns, block.first + (l - at), y, start);
    }
}

// The gathers of a side's columns, in local order. In a function of its own the loop takes 0.07 instructions an entry fewer on the medium problem than
// inlined into the operator.
#[inline(never)]
pub(crate) fn gather_side(
    columns: Columns<'_>,
    side: &[u32],
    y: &[f64],
    start: f64,
    out: &mut [f64],
)
    requires { SideFits (over (length y.now) columns) side.now (length out.old) }
    ensures { let m = over (length y.now) columns.entry in
        out.new ≡ side_gather start m side.now y.now }
{
    let mut at: usize = 0;
    for block in blocks_of(side) {
        gather_block(columns, block, at, y, start, out);
        at += block.dof;
    }
}

// A row's term with column c of its block's inverse, added to acc.
#[tactic(auto, using(crate::proofs::InverseRules::inverting))]
fn add_inverse(
    inverses: &[f64],
    t: &[f64],
    dof: usize,
    from: usize,
    at: usize,
    row: usize,
    c: usize,
    acc: f64,
) -> f64
    requires { TermFits (length inverses.now) (length t.now) dof from at row c }
    ensures { result ≡ sum_from acc (block_term inverses.now t.now dof from at row c) }
{
    acc + inverses[from + (c * dof + row)] * t[at + c]
}

// A row of a block's inverse times the block's entries of t. No zero is skipped.
#[tactic(auto, using(crate::proofs::InverseRules::inverting))]
fn inverse_row(inverses: &[f64], t: &[f64], dof: usize, from: usize, at: usize, row: usize) -> f64
    requires { RowFits (length inverses.now) (length t.now) dof from at row }
    ensures { result ≡ sum_from zero₊ (gather (block_term inverses.now t.now dof from at row) 0 dof) }
{
    let mut acc = 0.0;
    // By index: a row's values lie `dof` places apart, so the column says where its value is.
    for c in 0..dof {
        acc = add_inverse(inverses, t, dof, from, at, row, c, acc);
    }
    acc
}

// A block's rows, from place `at` on.
#[tactic(auto, using(crate::proofs::InverseRules::inverting))]
fn inverse_rows(inverses: &[f64], t: &[f64], dof: usize, from: usize, at: usize, out: &mut [f64])
    requires { RowsFit (length inverses.now) (length t.now) dof from at (length out.old) }
    ensures { writing (at + dof) out.new
        ≡ folded put (writing at out.old) (gather (block_row inverses.now t.now dof from at) 0 dof) }
{
    // By index: a row's number says where its values are too.
    for r in 0..dof {
        out[at + r] = inverse_row(inverses, t, dof, from, at, r);
    }
}

// The same; a block of three, the dof of a point, is told apart so that the compiler writes its rows out without a loop.
#[tactic(auto, using(crate::proofs::InverseRules::inverting))]
fn inverse_block(inverses: &[f64], t: &[f64], dof: usize, from: usize, at: usize, out: &mut [f64])
    requires { RowsFit (length inverses.now) (length t.now) dof from at (length out.old) }
    ensures { writing (at + dof) out.new
        ≡ folded put (writing at out.old) (gather (block_row inverses.now t.now dof from at) 0 dof) }
{
    if dof == 3 {
        inverse_rows(inverses, t, 3, from, at, out);
        return;
    }
    inverse_rows(inverses, t, dof, from, at, out);
}

// Each block's inverse times its entries of t, block after block.
#[tactic(auto, using(crate::proofs::InverseRules::inverting))]
pub(crate) fn inverse_times(elims: &[u32], inverses: &[f64], t: &[f64], out: &mut [f64])
    requires { InversesFit elims.now (length inverses.now) (length t.now) (length out.old) }
    ensures { out.new ≡ inverse_times elims.now inverses.now t.now }
{
    let mut from: usize = 0;
    let mut at: usize = 0;
    for block in blocks_of(elims) {
        inverse_block(inverses, t, block.dof, from, at, out);
        from += block.dof * block.dof;
        at += block.dof;
    }
}
