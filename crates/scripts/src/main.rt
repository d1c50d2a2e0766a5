//! Reads many scripts, parted by byte 30, and writes the answers to each with a line `--` after them.

#![tactic(auto)]

use script::answers;
use std::io;
use std::io::{Read, Write};

/// What stands between two scripts.
const SEPARATOR: u8 = 30;

/// Writes the answers to one script, and the line after them.
fn write_answers(rt: &HostRuntime, script: &[u8]) -> io::Result<()> {
    let text = answers(rt.alloc(), script)?;
    rt.stdout().write_all(text.as_slice())?;
    rt.stdout().write_all(b"--\n")
}

fn main(rt: HostRuntime) -> io::Result<()> {
    let mut input = Vec::new(rt.alloc());
    rt.stdin().read_to_end(&mut input)?;
    for script in input.as_slice().split(|b| *b == SEPARATOR) {
        write_answers(&rt, script)?;
    }
    Ok(())
}
