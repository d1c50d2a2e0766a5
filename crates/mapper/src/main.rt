//! Reads a script from standard input and writes its answers to standard output.

#![tactic(auto)]

use script::answers;
use std::io;
use std::io::{Read, Write};

/// One byte more than a script may have: what comes after it changes no answer.
const MOST_READ: u64 = 65_537;

fn main(rt: HostRuntime) -> io::Result<()> {
    let heap = rt.alloc();
    let mut script = Vec::new(heap);
    rt.stdin().take(MOST_READ).read_to_end(&mut script)?;
    let text = answers(heap, script.as_slice())?;
    rt.stdout().write_all(text.as_slice())
}
