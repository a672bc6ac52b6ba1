// Replays lists of the original's products (oracle/README-answers.md, Products): every case goes through our products, and what they give is
// compared with what the original gave, bit for bit, with NaN as NaN. `answers` is as the original answered; `flipped` has some of its cases,
// with one bit changed in some of the answers, so that the comparison is seen to find each.
#![tactic(auto)]

mod kinds;
mod lists;
mod planned;
mod problem;
mod tally;
mod unplanned;

use std::alloc::AllocError;
use std::io::{ErrorKind, Read};
use std::rt::Files;
use std::{fs, io};
use tally::replay_list;

// The most bytes that are read of a list, which has fewer than 1,000,000: a word more, so that a longer file shows.
const MOST_BYTES: u64 = 1_000_004;

// The three programs that replay have this alike: a library's public function needs a promise that determines its outcome (tests/promises.sh),
// and what reads a file has none.
//
// Replays the list in the file `name`, and writes its line. A read that fails is the end of the file, but memory that is refused ends the program: what
// was read by then is no list to count. There is more than a list where bytes are left that make no word, or where as many were read as may be.
fn replay_file(rt: &(impl Files + Print + AllocGlobal), name: &str) -> io::Result<()> {
    let Ok(file) = fs::open(rt, name) else {
        return println!(rt; "{name}: cannot be opened");
    };
    let mut bytes = Vec::new(rt.alloc());
    if let Err(e) = file.take(MOST_BYTES).read_to_end(&mut bytes) {
        if e.kind() == ErrorKind::OutOfMemory {
            return Err(e);
        }
    }
    let (words, rest) = bytes.as_chunks::<4>();
    let words: Vec<u32> = words
        .iter()
        .map(|word| u32::from_le_bytes(*word))
        .collect(rt.alloc())?;
    let more = !rest.is_empty() || bytes.len() as u64 == MOST_BYTES;
    let tally = replay_list(rt.alloc(), &words, more)?;
    println!(rt; "{name}: {tally}")
}

fn main(rt: HostRuntime) -> io::Result<()> {
    replay_file(&rt, "answers")?;
    replay_file(&rt, "flipped")
}
