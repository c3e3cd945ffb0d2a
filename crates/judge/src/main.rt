//! Reads a lock text from the standard input and prints one line that says what was done.
#![tactic(auto)]

use answer::answer_to;
use lock_text::MAX_TEXT;
use std::io;
use std::io::Read;

/// One byte past the limit of a text tells that a text is too long.
const MOST: u64 = MAX_TEXT as u64 + 1;

fn main(rt: HostRuntime) -> io::Result<()> {
    let mut text = Vec::new(rt.alloc());
    rt.stdin().take(MOST).read_to_end(&mut text)?;
    let answer = answer_to(&text);
    println!(rt; "{answer}")
}
