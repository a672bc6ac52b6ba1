// What the eliminated blocks hold, for columns and sides that are checked already: the gather, one dot of two columns for each entry, so that
// `JᵀJ` is never formed; and damping, which touches the diagonals alone.
#![tactic(auto, using(crate::proofs::ValueRules::values))]

ghost use Rattle.std.specs.Prelude.{◌≡◌, ◌+◌, ◌*◌, ◌<◌, length};
ghost use Rattle.ground.specs.Fold.{folded};
ghost use Rattle.ground.specs.Range.{range};
ghost use Rattle.ground.specs.Gather.{gather};
ghost use Rattle.columns.specs.Lent.{seen};
ghost use Rattle.blocks.specs.BlockValues.{
  value_count,
  dot_column,
  dot_blocks,
  writing,
  put,
  damp_place,
  damp_column,
  damp_blocks,
  ColumnFits,
  BlockFits,
  ValuesFit,
  BlocksFit,
};

use crate::damping::Damping;
use crate::sides::blocks_of;
use columns::lent::Columns;
use columns::unchecked::dot_columns;

// Column `col` of a block, from `at` on.
fn put_column(columns: Columns, first: usize, dof: usize, col: usize, at: usize, out: &mut [f64])
    requires { ColumnFits (seen columns) first dof col at (length out.old) }
    ensures { let m = seen columns.entry in
        writing (at + dof) out.new ≡ folded put (writing at out.old) (dot_column m first dof col) }
{
    // By index: a row's number says which column it is and where its dot goes.
    for r in 0..dof {
        out[at + r] = dot_columns(columns, first + r, first + col);
    }
}

// A block's columns, from `at` on.
fn put_block(columns: Columns, first: usize, dof: usize, at: usize, out: &mut [f64])
    requires { BlockFits (seen columns) first dof at (length out.old) }
    ensures { let m = seen columns.entry in
        writing (at + dof * dof) out.new ≡ folded put (writing at out.old) (gather (dot_column m first dof) 0 dof) }
{
    // By index: a column's number says where its dots begin.
    for c in 0..dof {
        put_column(columns, first, dof, c, at + c * dof, out);
    }
}

// Each block's entries, block after block.
pub(crate) fn gather_blocks(columns: Columns, elims: &[u32], out: &mut [f64])
    requires { BlocksFit (seen columns) elims.now (length out.old) }
    ensures { out.new ≡ dot_blocks (seen columns.entry) elims.now }
{
    let mut at: usize = 0;
    for block in blocks_of(elims) {
        put_block(columns, block.first, block.dof, at, out);
        at += block.dof * block.dof;
    }
}

// Adds its term to the value at place p.
fn damp_value(damping: Damping, p: usize, out: &mut [f64])
    requires { p < length out.old }
    ensures { out.new ≡ damp_place damping p out.old }
{
    out[p] += damping.term(out[p]);
}

// Adds its term to each diagonal value of a block whose values begin at `at`.
fn damp_block(damping: Damping, dof: usize, at: usize, out: &mut [f64])
    requires { ValuesFit dof at (length out.old) }
    ensures { out.new ≡ range (damp_column damping dof at) 0 dof out.old }
{
    // By index: the diagonal's places lie one more than a column apart, so its number says where it is.
    for k in 0..dof {
        damp_value(damping, at + (k * dof + k), out);
    }
}

// The same of all blocks.
pub(crate) fn damp_blocks(damping: Damping, elims: &[u32], out: &mut [f64])
    requires { length out.old ≡ value_count elims.now }
    ensures { out.new ≡ damp_blocks damping elims.now out.old }
{
    let mut at: usize = 0;
    for block in blocks_of(elims) {
        damp_block(damping, block.dof, at, out);
        at += block.dof * block.dof;
    }
}
