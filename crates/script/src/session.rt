//! The session.
ghost use Rattle.std.specs.Prelude.{◌≡◌, ◌≤◌, length, drop};
ghost use Rattle.layers.specs.Lists.{pairs_of};
ghost use Rattle.mapping.specs.Rows.{rows_of};
ghost use Rattle.reading.specs.Lines.{lines_of};
ghost use Rattle.reading.specs.Reading.{left};
ghost use Rattle.script.specs.Sessions.{standing, state_after};

use crate::workspace::Workspace;
use reading::Reader;

mod calls;

pub(crate) use calls::LEAST_ROOM;

/// A script of which some lines were taken: its sheet, pairs and settings are those after that many lines.
#[derive(Drop)]
pub struct Session<'a> {
    reader: Reader<'a>,
    taken: u32,
    work: Workspace,
    ghost short: { length reader.script.now ≤ 65536 },
    ghost counted: { taken ≤ reader.place },
    ghost within: { reader.place ≤ length reader.script.now },
    ghost rest: { drop taken (lines_of reader.script.now) ≡ lines_of (left reader) },
    ghost rows: { rows_of work.sheet ≡ standing (state_after reader.script.now taken) },
    ghost pairs: { pairs_of work.pile.pairs ≡ (state_after reader.script.now taken).pairs },
    ghost charge: { work.pile.below.below.ticks.value ≡ (state_after reader.script.now taken).charge },
    ghost margin: { work.pile.below.percent.value ≡ (state_after reader.script.now taken).margin },
}
