//! Beginning a session, and taking its lines in turn.
ghost use Rattle.std.specs.Prelude.{◌≡◌, length};
ghost use Rattle.script.specs.Begun.{Begins, script_of, taken_of};
ghost use Rattle.script.specs.Sessions.{ScriptLaw, standing, state_after};
ghost use Rattle.script.specs.Turns.{room_after, taken_after, turn, turn_of, Within};

use crate::answer::write_outcome;
use crate::fault::{BeginFault, SessionFault};
use crate::session::Session;
use crate::turn::Answered;
use crate::workspace::Workspace;
use analysis::Row;
use reading::Reader;
use std::alloc::Global;

/// The least bytes of a room for an answer.
pub(crate) const LEAST_ROOM: usize = 4096;

impl<'a> Session<'a> {
    /// A session of a script, with nothing taken. Only this call can want memory.
    pub fn begin(heap: Global, script: &'a [u8]) -> Result<Session<'a>, BeginFault>
        ensures { Begins script.now result }
    {
        let reader = Reader::new(script)?;
        let work = Workspace::new(heap)?;
        Ok(Session {
            reader,
            taken: 0,
            work,
        })
    }

    /// The rows that stand, as the lines taken so far have made them.
    pub fn rows(&self) -> &[Row]
        ensures { result.now ≡ standing (state_after (script_of self.now) (taken_of self.now)) }
    {
        self.work.sheet.rows()
    }

    /// Takes the next line and writes its answer to the front of `room`; none where no line is left.
    /// A room under 4,096 bytes is refused: nothing is written, and the line is not counted.
    pub fn answer(&mut self, room: &mut [u8]) -> Result<Option<Answered>, SessionFault>
        ensures answer { turn_of result ≡ turn (script_of self.old) (taken_of self.old) (length room.old) }
        ensures room { room.new ≡ room_after (script_of self.old) (taken_of self.old) room.old }
        ensures within { Within result (length room.old) }
        ensures script { script_of self.new ≡ script_of self.old }
        ensures taken { taken_of self.new ≡ taken_after (script_of self.old) (taken_of self.old) (length room.old) }
        ensures course { ScriptLaw (script_of self.new) (taken_of self.new) }
    {
        if room.len() < LEAST_ROOM {
            return Err(SessionFault::Room);
        }
        let Some(read) = self.reader.read() else {
            return Ok(None);
        };
        let outcome = self.work.take(read);
        // No loop counts here: the lines taken are the state of the session.
        self.taken += 1;
        let line = self.taken;
        let bytes = write_outcome(room, line, outcome, &self.work.lines);
        Ok(Some(Answered {
            line,
            bytes,
            outcome,
        }))
    }
}
