// Reading a list of cases (oracle/README-answers.md has the format): its cases, the lists within each, and what the calls take of them.
ghost use Rattle.std.specs.Prelude.{length};
ghost use Rattle.std.specs.Iterator.{at_most};

use std::alloc::{AllocError, Global};
use std::num::{f64_from_bits_with_nan, f64_to_bits_with_nan};

// A case: the number of its kind, and its lists as they stand.
#[derive(Clone, Copy)]
pub(crate) struct Case<'a> {
    pub kind: u64,
    pub lists: &'a [u64],
}

// The cases that are left of a list. The first word of each is its kind, the second its size, which counts both. One that is cut short is no case.
#[derive(Drop)]
pub(crate) struct Cases<'a>(pub &'a [u64]);

impl<'a> Iterator for Cases<'a> {
    type Item = Case<'a>;

    ghost remaining = { λ s. at_most (length s.0.now) };

    fn next(&mut self) -> Option<Case<'a>> {
        let size = *self.0.get(1)?;
        let (case, rest) = self.0.split_at_checked(size as usize)?;
        let ([kind, _], lists) = case.split_first_chunk::<2>()?;
        self.0 = rest;
        Some(Case { kind: *kind, lists })
    }
}

// The three programs that replay have the lists and `all_lists` alike: in a library they would be public, with a promise, a proof that it determines
// the outcome and an edit of their own, which is more than these lines are.

// The lists that are left of a case: each is a count, and that many numbers. One that is cut short is no list.
#[derive(Drop)]
struct Lists<'a>(&'a [u64]);

impl<'a> Iterator for Lists<'a> {
    type Item = &'a [u64];

    ghost remaining = { λ s. at_most (length s.0.now) };

    fn next(&mut self) -> Option<&'a [u64]> {
        let (count, rest) = self.0.split_first()?;
        let (list, rest) = rest.split_at_checked(*count as usize)?;
        self.0 = rest;
        Some(list)
    }
}

// The most numbers that a list may have.
const MOST: usize = 512;

// More lists than a case of any kind has: past so many none is gathered, since a case that is malformed may have as many as the file has words.
const TOO_MANY: usize = 13;

// The lists of a case; none where anything else is in it, or one is too long.
pub(crate) fn all_lists(alloc: Global, lists: &[u64]) -> Result<Vec<&[u64]>, AllocError> {
    let mut left = Lists(lists);
    let mut lists = left.by_ref().take(TOO_MANY).collect::<Vec<&[u64]>>(alloc)?;
    if !left.0.is_empty() || lists.iter().any(|list| list.len() > MOST) {
        lists.clear();
    }
    Ok(lists)
}

// A list as list numbers. One past 32 bits becomes the largest, which is no pointer and no row that a check lets pass.
pub(crate) fn narrow(alloc: Global, list: &[u64]) -> Result<Vec<u32>, AllocError> {
    list.iter()
        .map(|x| u32::try_from(*x).unwrap_or(u32::MAX))
        .collect(alloc)
}

// A list as floats. The logic has one NaN: every NaN pattern is read as it, and it is written as 0x7ff8_0000_0000_0000, the pattern that the
// lists have for it.
pub(crate) fn floats(alloc: Global, list: &[u64]) -> Result<Vec<f64>, AllocError> {
    list.iter()
        .map(|x| f64_from_bits_with_nan(*x))
        .collect(alloc)
}

// Room for as many floats as a list has. Each place holds what no expected answer is, so that one that a call never writes shows.
pub(crate) fn room(alloc: Global, list: &[u64]) -> Result<Vec<f64>, AllocError> {
    Ok(vec![in alloc; -12345.678; list.len()]?)
}

// Whether floats are those of a list, bit for bit, with NaN as NaN.
pub(crate) fn same(got: &[f64], list: &[u64]) -> bool {
    got.iter()
        .map(|x| f64_to_bits_with_nan(*x))
        .eq(list.iter().copied())
}

// Whether list numbers are those of a list.
pub(crate) fn same_u32(got: &[u32], list: &[u64]) -> bool {
    got.iter().map(|x| u64::from(*x)).eq(list.iter().copied())
}
