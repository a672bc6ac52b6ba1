// What a layer calls that has checked its columns already. Nothing here is checked again: each `requires` is what a passed check gives
// (proofs/CheckLaws.antt), and docs/PROMISES.md lists every function with one. A total form would check the columns anew for each column.
ghost use Rattle.std.specs.Prelude.{◌≡◌, ◌<◌, length};
ghost use Rattle.std.specs.Float.{binary64};
ghost use Rattle.std.specs.Float.Ieee.{add};
ghost use Rattle.ground.specs.Gather.{gather};
ghost use Rattle.columns.specs.Lent.{seen, over};
ghost use Rattle.columns.specs.Sums.{term, product, joined, landed, sum_from, swept_on};
ghost use Rattle.columns.specs.JacobianOps.{entry_term, gather_terms, landing, landings, sweep_terms, dot_of};
ghost use Rattle.columns.specs.Unchecked.{RunThere, EntriesFit, HasColumn, HasColumns, MergeFits, merge_step};

use crate::lent::Columns;
use ground::wide;

// Whether terms are added to the rows or subtracted.
#[derive(Clone, Copy)]
pub enum Sign {
    Plus,
    Minus,
}

// A row's value with a term added or subtracted.
fn join(sign: Sign, a: f64, t: f64) -> f64
    ensures { result ≡ joined sign a t }
{
    match sign {
        Sign::Plus => a + t,
        Sign::Minus => a - t,
    }
}

// One entry, taken x times, at its row of y.
fn land(sign: Sign, row: u32, value: f64, x: f64, y: &mut [f64])
    requires { row < length y.old }
    ensures { y.new ≡ landed sign y.old (record { row = row; term = term value x }) }
{
    let r = wide(row);
    y[r] = join(sign, y[r], value * x);
}

fn land_all(sign: Sign, rows: &[u32], values: &[f64], x: f64, lo: usize, hi: usize, y: &mut [f64])
    requires { EntriesFit rows.now (length values.now) (length y.old) lo hi }
    ensures { y.new ≡ swept_on sign y.old (gather (landing rows.now values.now x) lo hi) }
{
    if hi <= lo {
        return;
    }
    for (row, value) in rows[lo..hi].iter().zip(&values[lo..hi]) {
        land(sign, *row, *value, x, y);
    }
}

// The entries at places lo up to hi, x times, at their rows of y; nothing where x equals 0.0, of either sign.
pub fn sweep_entries(sign: Sign, columns: Columns, x: f64, lo: usize, hi: usize, y: &mut [f64])
    requires { EntriesFit columns.rows.now (length columns.values.now) (length y.old) lo hi }
    ensures { y.new ≡ swept_on sign y.old (landings columns.entry.rows.now columns.entry.values.now x lo hi) }
{
    if x == 0.0 {
        return;
    }
    land_all(sign, columns.rows, columns.values, x, lo, hi, y);
}

// One column's sweep.
pub fn sweep_column(sign: Sign, columns: Columns, x: f64, j: usize, y: &mut [f64])
    requires { HasColumn (over (length y.old) columns) j }
    ensures { y.new ≡ swept_on sign y.old (sweep_terms (over (length y.old) columns.entry) x j) }
{
    let lo = columns.first_place(j);
    let hi = columns.end_place(j);
    sweep_entries(sign, columns, x, lo, hi, y);
}

// A sum with one product taken in, whatever its factors are.
fn add_term(acc: f64, v: f64, x: f64) -> f64
    ensures { result ≡ add binary64 acc (product (term v x)) }
{
    acc + v * x
}

// The sum over places lo up to hi of each entry with what y holds at its row, from start. No zero is skipped.
fn gather_entries(rows: &[u32], values: &[f64], lo: usize, hi: usize, y: &[f64], start: f64) -> f64
    requires run { RunThere (length rows.now) lo hi }
    requires fit { EntriesFit rows.now (length values.now) (length y.now) lo hi }
    requires paired { length values.now ≡ length rows.now }
    ensures { result ≡ sum_from start (gather (entry_term rows.now values.now y.now) lo hi) }
{
    let mut acc = start;
    for (row, value) in rows[lo..hi].iter().zip(&values[lo..hi]) {
        acc = add_term(acc, *value, y[wide(*row)]);
    }
    acc
}

// One column's gather.
pub fn gather_column(columns: Columns, j: usize, y: &[f64], start: f64) -> f64
    requires { HasColumn (over (length y.now) columns) j }
    ensures { result ≡ sum_from start (gather_terms (over (length y.now) columns.entry) y.now j) }
{
    let lo = columns.first_place(j);
    let hi = columns.end_place(j);
    gather_entries(columns.rows, columns.values, lo, hi, y, start)
}

// How far the merge of two columns has come: the next entry of each, and the sum so far.
#[derive(Clone, Copy)]
pub struct Merge {
    pub ia: usize,
    pub ib: usize,
    pub acc: f64,
}

// Passes the entry with the lower row, or both where their rows are equal, with their product added.
fn merge_step(rows: &[u32], values: &[f64], at: Merge) -> Merge
    requires { MergeFits (length rows.now) (length values.now) at }
    ensures { result ≡ merge_step rows.now values.now at }
{
    let ia = at.ia;
    let ib = at.ib;
    let acc = at.acc;
    let row_a = rows[ia];
    let row_b = rows[ib];
    if row_a < row_b {
        return Merge {
            ia: ia + 1,
            ib,
            acc,
        };
    }
    if row_b < row_a {
        return Merge {
            ia,
            ib: ib + 1,
            acc,
        };
    }
    Merge {
        ia: ia + 1,
        ib: ib + 1,
        acc: acc + values[ia] * values[ib],
    }
}

// The dot of two columns: a sorted merge over their rows, so the cost is the sum of their entry counts and not the product.
pub fn dot_columns(columns: Columns, a: usize, b: usize) -> f64
    requires { HasColumns (seen columns) a b }
    ensures { result ≡ dot_of (seen columns.entry) a b }
{
    let end_a = columns.end_place(a);
    let end_b = columns.end_place(b);
    let mut at = Merge {
        ia: columns.first_place(a),
        ib: columns.first_place(b),
        acc: 0.0,
    };
    // By places: a merge goes on in one of two lists at each turn, so no iterator runs over either.
    while at.ia < end_a && at.ib < end_b {
        at = merge_step(columns.rows, columns.values, at);
    }
    at.acc
}
