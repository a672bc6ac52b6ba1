// Replaying a whole list, and what is counted of it.
use crate::kinds::{HEADS, Kind, replay};
use crate::lists::{Record, Records};
use crate::problem::Problem;
use std::alloc::{AllocError, Global};
use std::fmt;

// The most differing cases whose numbers are written.
const SHOWN: usize = 32;

// replay has a tally like it, of kinds of its own: shared, it would be public in a library, with promises and edits that are longer.
//
// What is counted of a list: its cases; the kinds of those that were compared; and the numbers, from 0, of those that differ. No list has so many
// cases that a count could wrap.
#[derive(Drop)]
pub(crate) struct Tally {
    cases: u64,
    compared: Vec<Kind>,
    differing: Vec<u64>,
}

impl Tally {
    // One more case: its kind and whether it is the original's, where it was compared.
    fn add(&mut self, compared: Option<(Kind, bool)>) -> Result<(), AllocError> {
        if let Some((kind, _)) = compared {
            self.compared.push(kind)?;
        }
        if !compared.is_some_and(|(_, same)| same) {
            self.differing.push(self.cases)?;
        }
        self.cases = self.cases.wrapping_add(1);
        Ok(())
    }
}

// A list's line, past its name.
impl fmt::Display for Tally {
    fn fmt<W: fmt::Write>(&self, f: &mut fmt::Formatter<W>) -> fmt::Result {
        let compared = self.compared.len();
        write!(f, "{compared} compared (")?;
        for (kind, head) in HEADS {
            let count = self.compared.iter().filter(|k| **k == kind).count();
            write!(f, "{head} {count}")?;
        }
        let differ = self.differing.len();
        write!(f, "), {differ} differ")?;
        for (k, number) in self.differing.iter().take(SHOWN).enumerate() {
            let head = if k == 0 { ':' } else { ',' };
            write!(f, "{head} case {number}")?;
        }
        Ok(())
    }
}

// Replays a case over its problem; nothing where there is none, or the case has no kind that is known, or not the lists of its kind.
fn replay_case(
    alloc: Global,
    problem: &Option<Problem>,
    case: Record,
) -> Result<Option<(Kind, bool)>, AllocError> {
    let (Some(problem), Ok(kind)) = (problem, Kind::try_from(case.kind)) else {
        return Ok(None);
    };
    let same = replay(alloc, kind, problem, case.lists)?;
    Ok(same.map(|same| (kind, same)))
}

// Replays every record of a list. What is left past the last whole one, `more` of the file among it, counts as a case that differs, as does a
// record of kind 0 that is no problem.
pub(crate) fn replay_list(alloc: Global, words: &[u32], more: bool) -> Result<Tally, AllocError> {
    let mut tally = Tally {
        cases: 0,
        compared: Vec::new(alloc),
        differing: Vec::new(alloc),
    };
    let mut problem = None;
    let mut records = Records(words);
    for record in &mut records {
        if record.kind == 0 {
            problem = Problem::take(alloc, record.lists)?;
            if problem.is_none() {
                tally.add(None)?;
            }
        } else {
            tally.add(replay_case(alloc, &problem, record)?)?;
        }
    }
    if more || !records.0.is_empty() {
        tally.add(None)?;
    }
    Ok(tally)
}
