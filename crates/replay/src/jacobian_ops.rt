// The functions of jacobian_ops.rs, over a case's columns. Then come the other inputs, and the answers. A call that is refused gives no answer,
// and so differs.
use crate::lists::{floats, room, same};
use columns::jacobian_ops::{column_dot, diag_jt_j, jt_j_vec_product, jt_vec};
use columns::lent::Columns;
use std::alloc::{AllocError, Global};

// The two columns and their dot.
pub(crate) fn same_column_dot(columns: Columns, a: u64, b: u64, dot: &[u64]) -> bool {
    column_dot(columns, a as usize, b as usize).is_ok_and(|x| same(&[x], dot))
}

// The vector over the rows and the product.
pub(crate) fn same_jt_vec(
    alloc: Global,
    columns: Columns,
    v: &[u64],
    out: &[u64],
) -> Result<bool, AllocError> {
    let v = floats(alloc, v)?;
    let mut got = room(alloc, out)?;
    Ok(jt_vec(columns, &v, &mut got).is_ok() && same(&got, out))
}

// The diagonal.
pub(crate) fn same_diag_jt_j(
    alloc: Global,
    columns: Columns,
    out: &[u64],
) -> Result<bool, AllocError> {
    let mut got = room(alloc, out)?;
    Ok(diag_jt_j(columns, &mut got).is_ok() && same(&got, out))
}

// The vector over the columns, the rows and the product.
pub(crate) fn same_jt_j_vec_product(
    alloc: Global,
    columns: Columns,
    v: &[u64],
    jv: &[u64],
    out: &[u64],
) -> Result<bool, AllocError> {
    let v = floats(alloc, v)?;
    let mut got_jv = room(alloc, jv)?;
    let mut got = room(alloc, out)?;
    let answer = jt_j_vec_product(columns, &v, &mut got_jv, &mut got);
    Ok(answer.is_ok() && same(&got_jv, jv) && same(&got, out))
}
