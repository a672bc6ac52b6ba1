// Products with `J` that never form `JᵀJ`: the gradient `Jᵀr`, the diagonal of `JᵀJ` for damping, dot products between two columns (which
// are entries of `JᵀJ`, one at a time), and `Jᵀ(J·v)` for the optimizers' quadratic model. Each checks what it is lent, and a refused call
// changes nothing.
ghost use Rattle.std.specs.Prelude.{◌≡◌, ◌+◌, length, replicate};
ghost use Rattle.ground.specs.Gather.{gather, list_of};
ghost use Rattle.columns.specs.Refusals.{told, or_else};
ghost use Rattle.columns.specs.Lengths.{wrong_length};
ghost use Rattle.columns.specs.Columns.{checked};
ghost use Rattle.columns.specs.Lent.{seen, over};
ghost use Rattle.columns.specs.declared.unchecked.Sign.TheVariants.{Plus};
ghost use Rattle.columns.specs.Sums.{zero₊, zero₋, sum_from, swept_on};
ghost use Rattle.columns.specs.JacobianOps.{square_term, gathered, squared_in, all_terms, no_column, dotted, column_dot, jt_vec, diag_jt_j, jt_j_vec_product};
ghost use Rattle.columns.specs.Unchecked.{RunThere, RunsThere, Gathers};

use crate::check::check_columns;
use crate::lent::Columns;
use crate::refusal::{Refusal, wrong_length};
use crate::unchecked::{Sign, dot_columns, gather_column, sweep_column};

// Whether column j exists.
fn no_column(ncolumns: usize, j: usize) -> Result<(), Refusal>
    ensures { told result ≡ no_column ncolumns j }
{
    if ncolumns <= j {
        return Err(Refusal::ColumnOutOfRange { column: j });
    }
    Ok(())
}

// Dot product of columns `a` and `b`: the `(a, b)` entry of `JᵀJ`, without any of the rest of it.
pub fn column_dot(columns: Columns, a: usize, b: usize) -> Result<f64, Refusal>
    ensures { dotted result ≡ column_dot (seen columns.entry) a b }
{
    check_columns(columns)?;
    no_column(columns.count(), a)?;
    no_column(columns.count(), b)?;
    Ok(dot_columns(columns, a, b))
}

// One gather per column, ascending.
fn gather_columns(columns: Columns, v: &[f64], out: &mut [f64])
    requires { Gathers (over (length v.now) columns) (length out.old) }
    ensures { out.new ≡ list_of (gathered (over (length v.now) columns.entry) v.now) (length out.old) }
{
    for (j, sum) in out.iter_mut().enumerate() {
        *sum = gather_column(columns, j, v, -0.0);
    }
}

// The columns, then the lengths of what else is lent, as pairs.
fn check_lent(columns: Columns, pairs: &[usize]) -> Result<(), Refusal>
    ensures { told result ≡ or_else (checked (seen columns.entry)) (wrong_length pairs.now) }
{
    check_columns(columns)?;
    wrong_length(pairs)
}

// `Jᵀ·v` for a vector `v` over the rows.
pub fn jt_vec(columns: Columns, v: &[f64], out: &mut [f64]) -> Result<(), Refusal>
    ensures { record { told = told result; out = out.new } ≡ jt_vec (seen columns.entry) v.now out.old }
{
    check_lent(
        columns,
        &[v.len(), columns.nrows, out.len(), columns.count()],
    )?;
    gather_columns(columns, v, out);
    Ok(())
}

// The squared norm of the column at places lo up to hi.
fn square_entries(values: &[f64], lo: usize, hi: usize) -> f64
    requires { RunThere (length values.now) lo hi }
    ensures { result ≡ sum_from zero₋ (gather (square_term values.now) lo hi) }
{
    let mut acc = -0.0;
    for x in &values[lo..hi] {
        acc += *x * *x;
    }
    acc
}

// The squared norm of each column, ascending.
fn square_columns(columns: Columns, out: &mut [f64])
    requires { RunsThere columns.ptrs.now (length columns.values.now) (length out.old) }
    ensures { out.new ≡ list_of (squared_in columns.entry.ptrs.now columns.entry.values.now) (length out.old) }
{
    for (j, sum) in out.iter_mut().enumerate() {
        *sum = square_entries(columns.values, columns.first_place(j), columns.end_place(j));
    }
}

// Diagonal of `JᵀJ`: the squared norm of each column.
pub fn diag_jt_j(columns: Columns, out: &mut [f64]) -> Result<(), Refusal>
    ensures { record { told = told result; out = out.new } ≡ diag_jt_j (seen columns.entry) out.old }
{
    check_lent(columns, &[out.len(), columns.count()])?;
    square_columns(columns, out);
    Ok(())
}

// Every row to +0.0.
pub fn clear(y: &mut [f64])
    ensures { y.new ≡ replicate (length y.old) zero₊ }
{
    y.fill(0.0);
}

// The sweep over all columns, ascending.
fn sweep_columns(columns: Columns, v: &[f64], y: &mut [f64])
    requires { Gathers (over (length y.old) columns) (length v.now) }
    ensures { y.new ≡ swept_on Plus y.old (all_terms (over (length y.old) columns.entry) v.now) }
{
    for (j, x) in v.iter().enumerate() {
        sweep_column(Sign::Plus, columns, *x, j, y);
    }
}

// `Jᵀ(J·v)`: the action of `JᵀJ` on `v`, from `J` alone. `jv` ends as `J·v`.
pub fn jt_j_vec_product(
    columns: Columns,
    v: &[f64],
    jv: &mut [f64],
    out: &mut [f64],
) -> Result<(), Refusal>
    ensures { record { told = told result; jv = jv.new; out = out.new }
        ≡ jt_j_vec_product (seen columns.entry) v.now jv.old out.old }
{
    let n = columns.count();
    check_lent(
        columns,
        &[v.len(), n, jv.len(), columns.nrows, out.len(), n],
    )?;
    clear(jv);
    sweep_columns(columns, v, jv);
    gather_columns(columns, jv, out);
    Ok(())
}
