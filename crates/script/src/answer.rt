//! Writes the text of answers into a caller's room.
ghost use Rattle.std.specs.Prelude.{◌+◌, ◌≤◌, length, decimal};
ghost use Rattle.std.specs.List.{flat_map};
ghost use Rattle.script.specs.Works.{Fitting, outcome_text};
ghost use Rattle.script.specs.Answers.{item, items, line_text, refusal_text, plan_text, Puts, Writes};

use crate::fault::Fault;
use mapping::{Issued, PlanLine};

// By functions that take the room and a place in it, and not by `write!`: no contract of it says that a text that fits is
// written whole. A string of its own for each answer, copied into the room, takes half as long again.

/// Puts `text` at a place, and gives the place after it.
fn put(room: &mut [u8], place: usize, text: &[u8]) -> usize
    requires { place + length text.now ≤ length room.old }
    ensures { Puts room.old place text.now result room.new }
{
    let end = place + text.len();
    room[place..end].copy_from_slice(text);
    end
}

/// Puts the digits of a number at a place, and gives the place after them.
fn put_number(room: &mut [u8], place: usize, n: u32) -> usize
    requires { place + length (decimal n) ≤ length room.old }
    ensures { Puts room.old place (decimal n) result room.new }
{
    if n < 10 {
        return put(room, place, &[b'0' + n as u8]);
    }
    let last = put_number(room, place, n / 10);
    put(room, last, &[b'0' + (n % 10) as u8])
}

/// Puts a comma and a number at a place, and gives the place after them.
fn put_item(room: &mut [u8], place: usize, n: u32) -> usize
    requires { place + length (item n) ≤ length room.old }
    ensures { Puts room.old place (item n) result room.new }
{
    let digits = put(room, place, b",");
    put_number(room, digits, n)
}

/// Puts three numbers, each after a comma, and byte 10 at a place, and gives the place after them.
fn put_items(room: &mut [u8], place: usize, a: u32, b: u32, c: u32) -> usize
    requires { place + length (items a b c) ≤ length room.old }
    ensures { Puts room.old place (items a b c) result room.new }
{
    let second = put_item(room, place, a);
    let third = put_item(room, second, b);
    let end = put_item(room, third, c);
    put(room, end, b"\n")
}

/// Puts a line of a plan at a place, and gives the place after it.
fn put_line(room: &mut [u8], place: usize, line: PlanLine) -> usize
    requires { place + length (line_text line) ≤ length room.old }
    ensures { Puts room.old place (line_text line) result room.new }
{
    let rest = put_number(room, place, line.task);
    put_items(room, rest, line.place, line.number, line.response)
}

/// Puts the lines of a plan at a place, and gives the place after them.
fn put_lines(room: &mut [u8], place: usize, lines: &[PlanLine]) -> usize
    requires { place + length (flat_map line_text lines.now) ≤ length room.old }
    ensures { Puts room.old place (flat_map line_text lines.now) result room.new }
{
    let mut end = place;
    for line in lines {
        end = put_line(room, end, *line);
    }
    end
}

/// Writes a refusal into a room that it fits, and gives the number of its bytes.
pub(crate) fn write_refusal(room: &mut [u8], line: u32, field: u32, code: u32) -> usize
    requires { length (refusal_text line field code) ≤ length room.old }
    ensures { Writes room.old (refusal_text line field code) result room.new }
{
    let rest = put(room, 0, b"refused");
    put_items(room, rest, line, field, code)
}

/// Writes a plan into a room that it fits, and gives the number of its bytes.
pub(crate) fn write_plan(
    room: &mut [u8],
    line: u32,
    tasks: u32,
    rows: u32,
    lines: &[PlanLine],
) -> usize
    requires { length (plan_text line tasks rows lines.now) ≤ length room.old }
    ensures { Writes room.old (plan_text line tasks rows lines.now) result room.new }
{
    let rest = put(room, 0, b"plan");
    let first = put_items(room, rest, line, tasks, rows);
    put_lines(room, first, lines)
}

/// Writes what an outcome is answered with, whose plan stands at the front of `lines`, and gives the number of its bytes.
pub(crate) fn write_outcome(
    room: &mut [u8],
    line: u32,
    outcome: Result<Option<Issued>, Fault>,
    lines: &[PlanLine],
) -> usize
    requires roomy { 4096 ≤ length room.old }
    requires early { line ≤ 65536 }
    requires fitting { Fitting outcome lines.now }
    ensures writes { Writes room.old (outcome_text line outcome lines.now) result room.new }
    ensures within { result ≤ length room.old }
{
    match outcome {
        Ok(None) => 0,
        Ok(Some(issued)) => {
            let front = &lines[..issued.lines as usize];
            write_plan(room, line, issued.tasks, issued.lines, front)
        }
        Err(fault) => write_refusal(room, line, fault.field(), fault.code()),
    }
}
