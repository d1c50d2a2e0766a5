//! All that is written for a script.
ghost use Rattle.std.specs.Prelude.{◌≡◌, ℕ, IfOk};
ghost use Rattle.reading.specs.Lines.{lines_of};
ghost use Rattle.script.specs.Answers.{refusal_text};
ghost use Rattle.script.specs.Begun.{script_of, taken_of};
ghost use Rattle.script.specs.Refusals.{refusal_of};
ghost use Rattle.script.specs.Sessions.{RowBetween, ScriptLaw, answers_from, output, start};

use crate::answer::write_refusal;
use crate::fault::{BeginFault, Fault};
use crate::session::{LEAST_ROOM, Session};
use std::alloc::{AllocError, Global};

/// The answers to all lines of a session that has taken none.
fn answer_lines(heap: Global, mut session: Session) -> Result<Vec<u8>, AllocError>
    requires { taken_of session ≡ 0 }
    ensures { IfOk result (λ v. v.items ≡ answers_from start 1 (lines_of (script_of session.entry))) }
{
    let mut out = Vec::new(heap);
    // An array: a session writes into a room of this many bytes, and only `out` takes memory.
    let mut room = [0u8; LEAST_ROOM];
    while let Ok(Some(answered)) = session.answer(&mut room) {
        out.extend_from_slice(&room[..answered.bytes])?;
    }
    Ok(out)
}

/// The refusal of a whole script.
fn refuse_script(heap: Global, fault: Fault) -> Result<Vec<u8>, AllocError>
    ensures { IfOk result (λ v. v.items ≡ refusal_text 0 (refusal_of fault).field (refusal_of fault).code) }
{
    // An array: the refusal is written into it, and only the result takes memory.
    let mut room = [0u8; LEAST_ROOM];
    let bytes = write_refusal(&mut room, 0, fault.field(), fault.code());
    Vec::from_slice(heap, &room[..bytes])
}

/// All that is written for a script: the answers to its lines, one after the other; one refusal where it is too long.
pub fn answers(heap: Global, script: &[u8]) -> Result<Vec<u8>, AllocError>
    ensures text { IfOk result (λ v. v.items ≡ output script.now) }
    ensures course { (k : ℕ) → ScriptLaw script.now k }
    ensures between { RowBetween script.now }
{
    match Session::begin(heap, script) {
        Ok(session) => answer_lines(heap, session),
        Err(BeginFault::Refused(fault)) => refuse_script(heap, fault),
        Err(BeginFault::Memory) => Err(AllocError),
    }
}
