//! Reads tables and writes verdicts, plans and answers about tasks, which are compared with stored ones.

#![tactic(auto)]

mod record;
mod refusal;
mod table;

use analysis::Choice;
use record::Record;
use std::io::{BufRead, BufReader};
use table::Table;

/// Takes each line of standard input in turn.
fn main(rt: HostRuntime) -> anyhow::Result<()> {
    let heap = rt.alloc();
    let mut table = Table::new(heap, 0, Choice::Exact)?;
    for line in BufReader::new(heap, rt.stdin())?.lines(heap) {
        let line = line?;
        let text = line.as_str();
        let (word, fields) = text.split_once(',').unwrap_or((text, ""));
        table.take(&rt, Record::of(heap, word, fields)?)?;
    }
    Ok(())
}
