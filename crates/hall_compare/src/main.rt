// Runs the built-in hall's cases 9 and 10, those that are compared and not proved, through the public calls, and prints what came of them.
// It takes no input. `stdout` has what document 01 says of the two cases, written by hand.
#![tactic(auto)]

use columns::lent::Columns;
use hall::tables::{
    CHUNK_LEN, COLUMNS, ELIMS_SPANS, INVERSES, KEPT_SPANS, SIDES, UNUSED, UNUSED_ROW, VALUES,
};
use plan::structure::plan;
use products::operator::apply_schur_operator;
use std::{fmt, io};

// A float, of which is written what it is: +0.0, NaN or something else.
#[derive(Clone, Copy)]
struct Kind(f64);

impl fmt::Display for Kind {
    fn fmt<W: fmt::Write>(&self, f: &mut fmt::Formatter<W>) -> fmt::Result {
        let x = self.0;
        f.write_str(if x.is_nan() {
            "NaN"
        } else if x.to_bits() == 0 {
            "+0.0"
        } else {
            "other"
        })
    }
}

// Case 9: the operator on v = 0, over the hall with NaN for its first value. Its rows and its result.
fn case9(rt: &impl Print) -> io::Result<()> {
    let mut values = VALUES;
    values[0] = f64::NAN;
    let mut map = [UNUSED; 3];
    let mut rows = [UNUSED_ROW; 5];
    let mut t = [UNUSED_ROW; 2];
    let mut u = [UNUSED_ROW; 2];
    let mut out = [UNUSED_ROW; 1];
    let columns = Columns {
        values: &values,
        ..COLUMNS
    };
    let answer = apply_schur_operator(
        columns,
        SIDES,
        &mut map,
        CHUNK_LEN,
        &[0.0],
        &INVERSES,
        &[],
        KEPT_SPANS,
        ELIMS_SPANS,
        &mut rows,
        &mut t,
        &mut u,
        &mut out,
    );
    if answer.is_err() {
        return println!(rt; "case 9: refused");
    }
    print!(rt; "case 9: rows")?;
    for x in rows {
        let kind = Kind(x);
        print!(rt; " {kind}")?;
    }
    let kind = Kind(out[0]);
    println!(rt; ", out {kind}")
}

// The number of the refusal of planning the hall with this chunk length; none where it is accepted. The buffers have room for chunks of one row.
// (hall plans it so too, with room for chunks of two rows, where its proof names what they hold: public there, it would need a promise of its own.)
fn refusal_number(chunk_len: usize) -> Option<u32> {
    let mut map = [UNUSED; 3];
    let mut kept_cols = [UNUSED; 3];
    let mut elims_cols = [UNUSED; 3];
    let mut elims_blocks = [UNUSED; 3];
    let mut owners = [UNUSED; 5];
    let mut row_list = [UNUSED; 5];
    let mut row_starts = [UNUSED; 3];
    let mut visible = [UNUSED; 8];
    let mut visible_starts = [UNUSED; 2];
    let mut kept_starts = [UNUSED; 6];
    let mut kept_lo = [UNUSED; 8];
    let mut kept_hi = [UNUSED; 8];
    let mut kept_local = [UNUSED; 8];
    let mut elims_starts = [UNUSED; 6];
    let mut elims_lo = [UNUSED; 8];
    let mut elims_hi = [UNUSED; 8];
    let mut elims_local = [UNUSED; 8];
    let answer = plan(
        COLUMNS,
        SIDES,
        chunk_len,
        &mut map,
        &mut kept_cols,
        &mut elims_cols,
        &mut elims_blocks,
        &mut owners,
        &mut row_list,
        &mut row_starts,
        &mut visible,
        &mut visible_starts,
        &mut kept_starts,
        &mut kept_lo,
        &mut kept_hi,
        &mut kept_local,
        &mut elims_starts,
        &mut elims_lo,
        &mut elims_hi,
        &mut elims_local,
    );
    answer.err().map(|refusal| refusal.number())
}

// Case 10: what planning answers with one chunk length, which `written` spells.
fn case10(rt: &impl Print, written: &str, chunk_len: usize) -> io::Result<()> {
    let told = match refusal_number(chunk_len) {
        None => "accepted",
        Some(5) => "refused with 5",
        Some(_) => "refused with another number",
    };
    println!(rt; "case 10: L = {written} {told}")
}

fn main(rt: HostRuntime) -> io::Result<()> {
    case9(&rt)?;
    case10(&rt, "0", 0)?;
    case10(&rt, "1", 1)?;
    case10(&rt, "1,048,576", 1_048_576)?;
    case10(&rt, "1,048,577", 1_048_577)
}
