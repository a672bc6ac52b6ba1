// The calls of `jacobian_ops`.
ghost use Rattle.std.specs.Prelude.{◌≡◌};
ghost use Rattle.columns.specs.Columns.{columns_of, checked};
ghost use Rattle.columns.specs.JacobianOps.{column_dot, jt_vec, diag_jt_j, jt_j_vec_product};
ghost use Rattle.edge.specs.Edge.{Crossed, crossed};
ghost use Rattle.edge_compare.specs.Compare.{dot_export, left_export, rows_export};

use crate::cross::cross_float;
use columns::check::check_columns;
use columns::jacobian_ops::{column_dot, diag_jt_j, jt_j_vec_product, jt_vec};
use columns::lent::Columns;
use edge::cross::cross_answer;

// Whether the columns keep the rules.
pub fn pivotfern_check_columns(
    nrows: usize,
    ptrs: &[u32],
    rows: &[u32],
    values: &[f64],
    first: &mut u64,
    second: &mut u64,
) -> u32
    ensures { let m = columns_of nrows ptrs.now rows.now values.now in
        record { number = result; first = first.new; second = second.new } ≡ crossed (checked m) }
{
    let columns = Columns {
        nrows,
        ptrs,
        rows,
        values,
    };
    let answer = check_columns(columns);
    cross_answer(answer, first, second)
}

// The dot of two columns, through `res`, which stays as it was after a refusal.
pub fn pivotfern_column_dot(
    nrows: usize,
    ptrs: &[u32],
    rows: &[u32],
    values: &[f64],
    a: usize,
    b: usize,
    res: &mut f64,
    first: &mut u64,
    second: &mut u64,
) -> u32
    ensures { let m = columns_of nrows ptrs.now rows.now values.now in
        let told : Crossed = record { number = result; first = first.new; second = second.new } in
        record { told = told; left = res.new } ≡ dot_export (column_dot m a b) res.old }
{
    let columns = Columns {
        nrows,
        ptrs,
        rows,
        values,
    };
    cross_float(column_dot(columns, a, b), res, first, second)
}

// The columns times a vector over the rows.
pub fn pivotfern_jt_vec(
    nrows: usize,
    ptrs: &[u32],
    rows: &[u32],
    values: &[f64],
    v: &[f64],
    out: &mut [f64],
    first: &mut u64,
    second: &mut u64,
) -> u32
    ensures { let m = columns_of nrows ptrs.now rows.now values.now in
        let told : Crossed = record { number = result; first = first.new; second = second.new } in
        record { told = told; left = out.new } ≡ left_export (jt_vec m v.now out.old) }
{
    let columns = Columns {
        nrows,
        ptrs,
        rows,
        values,
    };
    let answer = jt_vec(columns, v, out);
    cross_answer(answer, first, second)
}

// The squared norm of each column.
pub fn pivotfern_diag_jt_j(
    nrows: usize,
    ptrs: &[u32],
    rows: &[u32],
    values: &[f64],
    out: &mut [f64],
    first: &mut u64,
    second: &mut u64,
) -> u32
    ensures { let m = columns_of nrows ptrs.now rows.now values.now in
        let told : Crossed = record { number = result; first = first.new; second = second.new } in
        record { told = told; left = out.new } ≡ left_export (diag_jt_j m out.old) }
{
    let columns = Columns {
        nrows,
        ptrs,
        rows,
        values,
    };
    let answer = diag_jt_j(columns, out);
    cross_answer(answer, first, second)
}

// The normal matrix times a vector over the columns.
pub fn pivotfern_jt_j_vec_product(
    nrows: usize,
    ptrs: &[u32],
    rows: &[u32],
    values: &[f64],
    v: &[f64],
    y: &mut [f64],
    out: &mut [f64],
    first: &mut u64,
    second: &mut u64,
) -> u32
    ensures { let m = columns_of nrows ptrs.now rows.now values.now in
        let told : Crossed = record { number = result; first = first.new; second = second.new } in
        record { told = told; left = (y.new, out.new) }
        ≡ rows_export (jt_j_vec_product m v.now y.old out.old) }
{
    let columns = Columns {
        nrows,
        ptrs,
        rows,
        values,
    };
    let answer = jt_j_vec_product(columns, v, y, out);
    cross_answer(answer, first, second)
}
