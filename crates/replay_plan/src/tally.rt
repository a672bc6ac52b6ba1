// Replaying a whole list, and what is counted of it.
use crate::call::{is_refused, is_same};
use crate::lists::Cases;
use std::alloc::{AllocError, Global};
use std::fmt;

// The most differing cases whose numbers are written.
const SHOWN: usize = 20;

// What is counted of a list: its plans, those of them that were refused, and the numbers, from 0, of those that differ. No list has so many plans
// that a count could wrap.
#[derive(Drop)]
pub(crate) struct Tally {
    plans: u64,
    refused: u64,
    differing: Vec<u64>,
}

// A list's line, past its name.
impl fmt::Display for Tally {
    fn fmt<W: fmt::Write>(&self, f: &mut fmt::Formatter<W>) -> fmt::Result {
        let plans = self.plans;
        let refused = self.refused;
        let differ = self.differing.len();
        write!(
            f,
            "{plans} plans compared, {refused} of them refused, {differ} differ"
        )?;
        for (k, number) in self.differing.iter().take(SHOWN).enumerate() {
            let head = if k == 0 { ':' } else { ',' };
            write!(f, "{head} case {number}")?;
        }
        Ok(())
    }
}

// Replays every case of a list. What is left past the last whole case, `more` of the file among it, counts as one that differs.
pub(crate) fn replay_list(alloc: Global, words: &[u32], more: bool) -> Result<Tally, AllocError> {
    let mut tally = Tally {
        plans: 0,
        refused: 0,
        differing: Vec::new(alloc),
    };
    let mut cases = Cases(words);
    for case in &mut cases {
        if !is_same(alloc, case)? {
            tally.differing.push(tally.plans)?;
        }
        if is_refused(case) {
            tally.refused = tally.refused.wrapping_add(1);
        }
        tally.plans = tally.plans.wrapping_add(1);
    }
    if more || !cases.0.is_empty() {
        tally.differing.push(tally.plans)?;
    }
    Ok(tally)
}
