// The line of an answer, and the line of a record.
ghost use Rattle.std.specs.Prelude.{◌+◌, ◌≤◌, length};
ghost use Rattle.text_print.specs.Put.{PutIn};
ghost use Rattle.text_print.specs.Line.{answer_line, answer_room, record_start, start_room, record_end, end_room, record_line, record_room};

use crate::text::{put_field, put_text};
use scope::{Answer, Slot};

// Puts the line of an answer at `at`: the place after it, at most 133 bytes on.
pub fn put_answer(out: &mut [u8], at: usize, a: Answer) -> usize
    requires { at + answer_room ≤ length out.old }
    ensures { PutIn out.old at (answer_line a) out.new result answer_room }
{
    let p = put_field(out, at, b"code=", a.code);
    let p = put_field(out, p, b" change=", a.change);
    let p = put_field(out, p, b" value=", a.value);
    let p = put_field(out, p, b" more=", a.more);
    let p = put_field(out, p, b" kind=", a.kind);
    put_text(out, p, b"\n")
}

// Puts what a record holds, and its slot.
fn put_start(out: &mut [u8], at: usize, slot: usize, s: Slot) -> usize
    requires { at + start_room ≤ length out.old }
    ensures { PutIn out.old at (record_start s.key s.pieces s.state slot) out.new result start_room }
{
    let p = put_field(out, at, b"key=", s.key as u64);
    let p = put_field(out, p, b" pieces=", s.pieces as u64);
    let p = put_field(out, p, b" state=", s.state as u64);
    put_field(out, p, b" slot=", slot as u64)
}

// Puts its links and registers, and ends the line.
fn put_end(out: &mut [u8], at: usize, s: Slot) -> usize
    requires { at + end_room ≤ length out.old }
    ensures { PutIn out.old at (record_end s.left s.right s.lefth s.righth) out.new result end_room }
{
    let p = put_field(out, at, b" left=", s.left as u64);
    let p = put_field(out, p, b" right=", s.right as u64);
    let p = put_field(out, p, b" lefth=", s.lefth as u64);
    let p = put_field(out, p, b" righth=", s.righth as u64);
    put_text(out, p, b"\n")
}

// Puts the line of a record at `at`: the place after it, at most 214 bytes on.
pub fn put_record(out: &mut [u8], at: usize, slot: usize, s: Slot) -> usize
    requires { at + record_room ≤ length out.old }
    ensures { PutIn out.old at (record_line slot s) out.new result record_room }
{
    let p = put_start(out, at, slot, s);
    put_end(out, p, s)
}
