// Reading a list of plans (oracle/README-answers.md has the format). A word is a list number, so that a case's lists are lent to `plan` where
// they stand.
ghost use Rattle.std.specs.Prelude.{length};
ghost use Rattle.std.specs.Iterator.{at_most};

use std::alloc::{AllocError, Global};

// The cases that are left of a list, each without its size, which is its first word and counts itself. One that is cut short is no case.
#[derive(Drop)]
pub(crate) struct Cases<'a>(pub &'a [u32]);

impl<'a> Iterator for Cases<'a> {
    type Item = &'a [u32];

    ghost remaining = { λ s. at_most (length s.0.now) };

    fn next(&mut self) -> Option<&'a [u32]> {
        let size = *self.0.first()?;
        let (case, rest) = self.0.split_at_checked(size as usize)?;
        let (_, lists) = case.split_first()?;
        self.0 = rest;
        Some(lists)
    }
}

// The three programs that replay have the lists and `all_lists` alike: in a library they would be public, with a promise, a proof that it determines
// the outcome and an edit of their own, which is more than these lines are.

// The lists that are left of a case: each is a count, and that many numbers. One that is cut short is no list.
#[derive(Drop)]
pub(crate) struct Lists<'a>(pub &'a [u32]);

impl<'a> Iterator for Lists<'a> {
    type Item = &'a [u32];

    ghost remaining = { λ s. at_most (length s.0.now) };

    fn next(&mut self) -> Option<&'a [u32]> {
        let (count, rest) = self.0.split_first()?;
        let (list, rest) = rest.split_at_checked(*count as usize)?;
        self.0 = rest;
        Some(list)
    }
}

// More lists than a case has: past so many none is gathered, since a case that is malformed may have as many as the file has words.
const TOO_MANY: usize = 25;

// The lists of a case; none where anything else is in it.
pub(crate) fn all_lists(alloc: Global, case: &[u32]) -> Result<Vec<&[u32]>, AllocError> {
    let mut left = Lists(case);
    let mut lists = left.by_ref().take(TOO_MANY).collect::<Vec<&[u32]>>(alloc)?;
    if !left.0.is_empty() {
        lists.clear();
    }
    Ok(lists)
}
