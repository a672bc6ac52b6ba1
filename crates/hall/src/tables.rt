// The hall's tables, and document 01's figures of its cases.
use crate::same::Numbers;
use blocks::owner::Owner;
use blocks::sides::Sides;
use columns::lent::Columns;
use plan::lent::Spans;

// Five rows, and three columns with eight entries.
pub const NROWS: usize = 5;

pub const PTRS: [u32; 4] = [0, 4, 6, 8];

pub const ROWS: [u32; 8] = [0, 1, 3, 4, 0, 1, 3, 4];

pub const VALUES: [f64; 8] = [1.0, 2.0, 3.0, 4.0, 1.0, 1.0, 2.0, 1.0];

// One kept block, two eliminated ones, and the inverses of these.
pub const KEPT: [u32; 2] = [0, 1];

pub const ELIMS: [u32; 4] = [1, 1, 2, 1];

pub const INVERSES: [f64; 2] = [0.5, 0.25];

// The columns and both sides, as a call is lent them.
pub const COLUMNS: Columns<'static> = Columns {
    nrows: NROWS,
    ptrs: &PTRS,
    rows: &ROWS,
    values: &VALUES,
};

pub const SIDES: Sides<'static> = Sides {
    kept: &KEPT,
    elims: &ELIMS,
};

// What a call answers that is done and has no values to give.
pub const DONE: Numbers = Numbers {
    number: 0,
    count: 0,
    first: 0,
    second: 0,
};

// Case 1: each row's owner, each eliminated block's rows, and the eliminated blocks that the kept one sees.
pub const OWNERS: [u32; 5] = [0, 0, Owner::NONE, 1, 1];

pub const ROW_LIST: [u32; 4] = [0, 1, 3, 4];

pub const ROW_STARTS: [u32; 3] = [0, 2, 4];

pub const VISIBLE: [u32; 2] = [0, 1];

pub const VISIBLE_STARTS: [u32; 2] = [0, 2];

// Case 2: chunks of two rows; each of the three has one span of either side.
pub const CHUNK_LEN: usize = 2;

pub const STARTS: [u32; 4] = [0, 1, 2, 3];

pub const KEPT_LO: [u32; 3] = [0, 2, 3];

pub const KEPT_HI: [u32; 3] = [2, 3, 4];

pub const KEPT_LOCAL: [u32; 3] = [0, 0, 0];

pub const ELIMS_LO: [u32; 3] = [4, 6, 7];

pub const ELIMS_HI: [u32; 3] = [6, 7, 8];

pub const ELIMS_LOCAL: [u32; 3] = [0, 1, 1];

// The spans of either side, as a call is lent them.
pub const KEPT_SPANS: Spans<'static> = Spans {
    starts: &STARTS,
    lo: &KEPT_LO,
    hi: &KEPT_HI,
    local: &KEPT_LOCAL,
};

pub const ELIMS_SPANS: Spans<'static> = Spans {
    starts: &STARTS,
    lo: &ELIMS_LO,
    hi: &ELIMS_HI,
    local: &ELIMS_LOCAL,
};

// Case 2: planning is done, with three spans of either side.
pub const PLANNED: Numbers = Numbers {
    number: 0,
    count: 2,
    first: 3,
    second: 3,
};

// Case 3: v, the rows after the kept sweep, t, u, the rows at the end, and the result without damping and with.
pub const V: [f64; 1] = [2.0];

pub const FIRST_ROWS: [f64; 5] = [2.0, 4.0, 0.0, 6.0, 8.0];

pub const T: [f64; 2] = [6.0, 20.0];

pub const U: [f64; 2] = [3.0, 5.0];

pub const LAST_ROWS: [f64; 5] = [-1.0, 1.0, 0.0, -4.0, 3.0];

pub const OUT: [f64; 1] = [1.0];

pub const DAMPING: [f64; 1] = [0.5];

pub const DAMPED: [f64; 1] = [2.0];

// Case 4: a vector over the eliminated columns, and the coupling times it; its transpose times v is t.
pub const W: [f64; 2] = [1.0, 2.0];

pub const COUPLED: [f64; 1] = [23.0];

// Case 5: the dots of column 0 with columns 1 and 2, and the diagonal.
pub const DOT_0_1: f64 = 3.0;

pub const DOT_0_2: f64 = 10.0;

pub const DIAGONAL: [f64; 3] = [30.0, 2.0, 5.0];

// Case 6: column 2 moved to rows 1 and 4.
pub const MOVED: [u32; 8] = [0, 1, 3, 4, 0, 1, 1, 4];

// Case 6: refusal 10, blocks 1 and 0.
pub const CONNECTED: Numbers = Numbers {
    number: 10,
    count: 2,
    first: 1,
    second: 0,
};

// Case 7: an order that does every span, and three that are refused.
pub const ORDER: [u32; 3] = [2, 0, 1];

pub const TWICE: [u32; 3] = [0, 0, 1];

pub const SHORT: [u32; 2] = [0, 1];

pub const PAST: [u32; 1] = [3];

// Case 7: refusal 14 at places 1, 2 and 0.
pub const TWICE_ANSWER: Numbers = Numbers {
    number: 14,
    count: 1,
    first: 1,
    second: 0,
};

pub const SHORT_ANSWER: Numbers = Numbers {
    number: 14,
    count: 1,
    first: 2,
    second: 0,
};

pub const PAST_ANSWER: Numbers = Numbers {
    number: 14,
    count: 1,
    first: 0,
    second: 0,
};

// Case 8: column 0 with row 1 twice.
pub const REPEATED: [u32; 8] = [0, 1, 1, 4, 0, 1, 3, 4];

// Case 8: refusal 3, column 0 and entry 2.
pub const REPEATED_ANSWER: Numbers = Numbers {
    number: 3,
    count: 2,
    first: 0,
    second: 2,
};

// What the buffers hold before a call: no figure of the tables.
pub const UNUSED: u32 = 7;

pub const UNUSED_ROW: f64 = 7.0;
