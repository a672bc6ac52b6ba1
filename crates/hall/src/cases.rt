// Document 01's proved cases, one function each: the call, and whether what it gave is the tables'.
ghost use Rattle.std.specs.Prelude.{◌≡◌, ◌↔◌, IsTrue, true};
ghost use Rattle.hall.specs.Hall.{swept_along};
ghost use Rattle.hall.specs.Same.{numbers_of};

use crate::calls::{operate, plan_hall, sweep_kept};
use crate::same::{Numbers, is_sum, same_floats};
use crate::tables::{
    COLUMNS, CONNECTED, COUPLED, DAMPED, DAMPING, DIAGONAL, DONE, DOT_0_1, DOT_0_2, ELIMS_HI,
    ELIMS_LO, ELIMS_LOCAL, FIRST_ROWS, KEPT_HI, KEPT_LO, KEPT_LOCAL, LAST_ROWS, MOVED, ORDER, OUT,
    OWNERS, PAST, PAST_ANSWER, PLANNED, REPEATED, REPEATED_ANSWER, ROW_LIST, ROW_STARTS, ROWS,
    SHORT, SHORT_ANSWER, SIDES, STARTS, T, TWICE, TWICE_ANSWER, U, UNUSED, UNUSED_ROW, V, VISIBLE,
    VISIBLE_STARTS, W,
};
use columns::check::check_columns;
use columns::jacobian_ops::{column_dot, diag_jt_j};
use columns::lent::Columns;
use products::coupling::{coupling_times, coupling_transpose_times};

// Owners, row lists and the visible list.
pub(crate) fn case1() -> bool
    ensures { result ≡ true }
{
    let p = plan_hall(&ROWS);
    p.owners.starts_with(&OWNERS)
        & p.row_list.starts_with(&ROW_LIST)
        & p.row_starts.starts_with(&ROW_STARTS)
        & p.visible.starts_with(&VISIBLE)
        & p.visible_starts.starts_with(&VISIBLE_STARTS)
}

// Both sides' spans in chunks of two rows: three each.
pub(crate) fn case2() -> bool
    ensures { result ≡ true }
{
    let p = plan_hall(&ROWS);
    (Numbers::from(p.answer) == PLANNED)
        & p.kept_starts.starts_with(&STARTS)
        & p.kept_lo.starts_with(&KEPT_LO)
        & p.kept_hi.starts_with(&KEPT_HI)
        & p.kept_local.starts_with(&KEPT_LOCAL)
        & p.elims_starts.starts_with(&STARTS)
        & p.elims_lo.starts_with(&ELIMS_LO)
        & p.elims_hi.starts_with(&ELIMS_HI)
        & p.elims_local.starts_with(&ELIMS_LOCAL)
}

// The operator, without damping and with.
pub(crate) fn case3() -> bool
    ensures { result ≡ true }
{
    let w = operate(&[]);
    let d = operate(&DAMPING);
    (Numbers::from(w.answer) == DONE)
        & same_floats(&w.t, &T)
        & same_floats(&w.u, &U)
        & same_floats(&w.rows, &LAST_ROWS)
        & same_floats(&w.out, &OUT)
        & (Numbers::from(d.answer) == DONE)
        & same_floats(&d.out, &DAMPED)
}

// The coupling times a vector over the eliminated columns.
fn case4_times() -> bool
    ensures { result ≡ true }
{
    let mut map = [UNUSED; 3];
    let mut rows = [UNUSED_ROW; 5];
    let mut out = [UNUSED_ROW; 1];
    let answer = coupling_times(COLUMNS, SIDES, &mut map, &W, &mut rows, &mut out);
    (Numbers::from(answer) == DONE) & same_floats(&out, &COUPLED)
}

// Its transpose times v; the rows end as case 3's kept sweep leaves them.
fn case4_transpose() -> bool
    ensures { result ≡ true }
{
    let mut map = [UNUSED; 3];
    let mut rows = [UNUSED_ROW; 5];
    let mut out = [UNUSED_ROW; 2];
    let answer = coupling_transpose_times(COLUMNS, SIDES, &mut map, &V, &mut rows, &mut out);
    (Numbers::from(answer) == DONE) & same_floats(&rows, &FIRST_ROWS) & same_floats(&out, &T)
}

// Both coupling products.
pub(crate) fn case4() -> bool
    ensures { result ≡ true }
{
    case4_times() & case4_transpose()
}

// Two dots of columns, and the diagonal.
pub(crate) fn case5() -> bool
    ensures { result ≡ true }
{
    let one = column_dot(COLUMNS, 0, 1);
    let two = column_dot(COLUMNS, 0, 2);
    let mut out = [UNUSED_ROW; 3];
    let answer = diag_jt_j(COLUMNS, &mut out);
    is_sum(one, DOT_0_1)
        & is_sum(two, DOT_0_2)
        & (Numbers::from(answer) == DONE)
        & same_floats(&out, &DIAGONAL)
}

// Column 2 moved: eliminated block 1 finds a row that block 0 holds.
pub(crate) fn case6() -> bool
    ensures { result ≡ true }
{
    let p = plan_hall(&MOVED);
    Numbers::from(p.answer) == CONNECTED
}

// Whether the kept sweep along an order answers as expected.
fn sweep_answers(order: &[u32], expected: Numbers) -> bool
    ensures { IsTrue result ↔ numbers_of (swept_along order.now).told ≡ expected }
{
    Numbers::from(sweep_kept(order).answer) == expected
}

// The kept sweep along four orders: the first does every span, the others are refused at a place.
pub(crate) fn case7() -> bool
    ensures { result ≡ true }
{
    let s = sweep_kept(&ORDER);
    (Numbers::from(s.answer) == DONE)
        & same_floats(&s.rows, &FIRST_ROWS)
        & sweep_answers(&TWICE, TWICE_ANSWER)
        & sweep_answers(&SHORT, SHORT_ANSWER)
        & sweep_answers(&PAST, PAST_ANSWER)
}

// A row twice in column 0: its entry 2.
pub(crate) fn case8() -> bool
    ensures { result ≡ true }
{
    let repeated = Columns {
        rows: &REPEATED,
        ..COLUMNS
    };
    Numbers::from(check_columns(repeated)) == REPEATED_ANSWER
}
