// Reading a list of products (oracle/README-answers.md has the format). A word has 32 bits, so that list numbers are lent to the products where
// they stand; a float is two words, the low one first.
ghost use Rattle.std.specs.Prelude.{length};
ghost use Rattle.std.specs.Iterator.{at_most};

use std::alloc::{AllocError, Global};
use std::num::{f64_from_bits_with_nan, f64_to_bits_with_nan};

// A record: its kind, and its lists as they stand. One of a single word has none.
#[derive(Clone, Copy)]
pub(crate) struct Record<'a> {
    pub kind: u32,
    pub lists: &'a [u32],
}

// The records that are left of a list. The first word of each is its kind, the second its size, which counts both. One that is cut short is no
// record.
#[derive(Drop)]
pub(crate) struct Records<'a>(pub &'a [u32]);

impl<'a> Iterator for Records<'a> {
    type Item = Record<'a>;

    ghost remaining = { λ s. at_most (length s.0.now) };

    fn next(&mut self) -> Option<Record<'a>> {
        let size = *self.0.get(1)?;
        let (record, rest) = self.0.split_at_checked(size as usize)?;
        let (kind, past) = record.split_first()?;
        self.0 = rest;
        Some(Record {
            kind: *kind,
            lists: past.get(1..).unwrap_or(past),
        })
    }
}

// The three programs that replay have the lists and `all_lists` alike: in a library they would be public, with a promise, a proof that it determines
// the outcome and an edit of their own, which is more than these lines are.

// The lists that are left of a record: each is a count, and that many numbers. One that is cut short is no list.
#[derive(Drop)]
struct Lists<'a>(&'a [u32]);

impl<'a> Iterator for Lists<'a> {
    type Item = &'a [u32];

    ghost remaining = { λ s. at_most (length s.0.now) };

    fn next(&mut self) -> Option<&'a [u32]> {
        let (count, rest) = self.0.split_first()?;
        let (list, rest) = rest.split_at_checked(*count as usize)?;
        self.0 = rest;
        Some(list)
    }
}

// More lists than a record of any kind has: past so many none is gathered, since a record that is malformed may have as many as the file has words.
const TOO_MANY: usize = 19;

// The lists of a record; none where anything else is in it.
pub(crate) fn all_lists(alloc: Global, lists: &[u32]) -> Result<Vec<&[u32]>, AllocError> {
    let mut left = Lists(lists);
    let mut lists = left.by_ref().take(TOO_MANY).collect::<Vec<&[u32]>>(alloc)?;
    if !left.0.is_empty() {
        lists.clear();
    }
    Ok(lists)
}

// The most floats that are taken of one list, and the most places of a map or a progress.
pub(crate) const MOST: usize = 128;

// What every place of a map and of a progress holds before the call: no number of an answer.
pub(crate) const UNUSED: u32 = 3_000_000_000;

// A map or a progress of n places, where there is room.
pub(crate) fn unused(alloc: Global, n: usize) -> Result<Vec<u32>, AllocError> {
    Ok(vec![in alloc; UNUSED; MOST.min(n)]?)
}

// What every place of a result holds before the call: no expected answer, so that one that a call never writes shows.
const UNWRITTEN: f64 = -12345.678;

// The pattern of a float.
fn pattern([low, high]: [u32; 2]) -> u64 {
    u64::from(low) | u64::from(high) << 32
}

// The floats of a list.
pub(crate) fn floats(alloc: Global, list: &[u32]) -> Result<Vec<f64>, AllocError> {
    let (patterns, _) = list.as_chunks::<2>();
    patterns
        .iter()
        .take(MOST)
        .map(|words| f64_from_bits_with_nan(pattern(*words)))
        .collect(alloc)
}

// Room for as many floats as a list has.
pub(crate) fn room(alloc: Global, list: &[u32]) -> Result<Vec<f64>, AllocError> {
    Ok(vec![in alloc; UNWRITTEN; MOST.min(list.len() / 2)]?)
}

// Whether floats are those of a list, bit for bit, with NaN as NaN.
pub(crate) fn same(got: &[f64], list: &[u32]) -> bool {
    let (patterns, rest) = list.as_chunks::<2>();
    let got = got.iter().map(|x| f64_to_bits_with_nan(*x));
    rest.is_empty() && got.eq(patterns.iter().map(|words| pattern(*words)))
}
