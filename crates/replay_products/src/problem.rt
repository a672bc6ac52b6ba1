// A problem: columns, sides, vectors and a plan, for the cases that stand after it, up to the next problem.
use crate::lists::{MOST, UNUSED, all_lists, floats, unused};
use blocks::sides::Sides;
use columns::lent::Columns;
use plan::lent::Spans;
use products::side::Side;
use std::alloc::{AllocError, Global};

// What a problem has of one side: a vector, and the plan's spans.
#[derive(Drop)]
pub(crate) struct Swept<'a> {
    pub v: Vec<f64>,
    pub spans: Spans<'a>,
}

#[derive(Drop)]
pub(crate) struct Problem<'a> {
    nrows: usize,
    ptrs: &'a [u32],
    rows: &'a [u32],
    values: Vec<f64>,
    pub sides: Sides<'a>,
    pub chunk_len: usize,
    // the map after a call
    map: &'a [u32],
    pub inverses: Vec<f64>,
    pub kept: Swept<'a>,
    pub elims: Swept<'a>,
}

impl<'a> Problem<'a> {
    // The problem that a record's lists are, if they are one.
    pub(crate) fn take(alloc: Global, lists: &'a [u32]) -> Result<Option<Problem<'a>>, AllocError> {
        let lists = all_lists(alloc, lists)?;
        let &[
            &[nrows, chunk_len],
            ptrs,
            rows,
            values,
            kept,
            elims,
            map,
            inverses,
            kept_v,
            elims_v,
            kept_starts,
            kept_lo,
            kept_hi,
            kept_local,
            elims_starts,
            elims_lo,
            elims_hi,
            elims_local,
        ] = lists.as_slice()
        else {
            return Ok(None);
        };
        if kept_starts.is_empty() || elims_starts.is_empty() {
            return Ok(None);
        }
        Ok(Some(Problem {
            nrows: nrows as usize,
            ptrs,
            rows,
            values: floats(alloc, values)?,
            sides: Sides { kept, elims },
            chunk_len: chunk_len as usize,
            map,
            inverses: floats(alloc, inverses)?,
            kept: Swept {
                v: floats(alloc, kept_v)?,
                spans: Spans {
                    starts: kept_starts,
                    lo: kept_lo,
                    hi: kept_hi,
                    local: kept_local,
                },
            },
            elims: Swept {
                v: floats(alloc, elims_v)?,
                spans: Spans {
                    starts: elims_starts,
                    lo: elims_lo,
                    hi: elims_hi,
                    local: elims_local,
                },
            },
        }))
    }

    pub(crate) fn columns(&self) -> Columns<'_> {
        Columns {
            nrows: self.nrows,
            ptrs: self.ptrs,
            rows: self.rows,
            values: &self.values,
        }
    }

    // What it has of a side.
    pub(crate) fn swept(&self, side: Side) -> &Swept<'_> {
        match side {
            Side::Kept => &self.kept,
            Side::Eliminated => &self.elims,
        }
    }

    // A map to lend: two places longer than the columns, where there is room.
    pub(crate) fn map_room(&self, alloc: Global) -> Result<Vec<u32>, AllocError> {
        unused(alloc, self.map.len().saturating_add(2))
    }

    // Whether a map is as it has to be after a call, and past the columns as it was.
    pub(crate) fn same_map(&self, got: &[u32]) -> bool {
        let n = MOST.min(self.map.len());
        got.strip_prefix(&self.map[..n])
            .is_some_and(|rest| rest.iter().all(|x| *x == UNUSED))
    }
}
