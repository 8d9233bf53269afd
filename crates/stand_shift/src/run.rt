// The whole program: reads an input, and writes what each line answers.
ghost use Rattle.std.specs.Prelude.{◌≡◌, ◌≤◌, ◌<◌, length, take, drop, Err, IfSome, OnOk};
ghost use Rattle.std.specs.Io.KnownBytes.{Appends};
ghost use Rattle.text_print.specs.Line.{answer_room};
ghost use Rattle.stand_desk.specs.Desk.{new_desk, desk_room};
ghost use Rattle.stand_shift.specs.declared.run.Failure.TheVariants.{Unwritten};
ghost use Rattle.stand_shift.specs.Run.{most_input, whole_run, refused_text, run_text};

use crate::fill;
use scope::Refusal;
use stand_desk::DESK_WORDS;
use stand_input::Input;
use std::io;
use std::io::{Read, Write};

// A longer input is answered by one unreadable line.
pub const MOST_INPUT: usize = 65536;

// What came of writing: how many bytes were handed on to be written, whether or not they were, and whether all writes
// succeeded.
#[derive(Drop)]
struct Told {
    count: usize,
    done: io::Result<()>,
}

// Writes the next piece of what `stand` prints on this input, of which `sent` bytes are handed on already: both are only
// for the contract. Unless the write failed, the writer has the piece.
fn hand_on<W: Write>(writer: &mut W, input: &[u8], sent: usize, out: &[u8], at: usize) -> Told
    requires { (at ≤ length out.now) × (take at out.now ≡ take at (drop sent (run_text input.now))) }
    ensures count { result.count ≡ at }
    ensures bytes { OnOk result.done (Appends (W.contents writer.old) (W.contents writer.new) (take at out.now)) }
{
    let done = writer.write_all(&out[..at]);
    Told { count: at, done }
}

// Answers each line of the input, and writes all that `stand` prints, piece after piece: also the pieces after one that
// was not written.
fn answer_all<W: Write>(writer: &mut W, input: &[u8], t: &mut [u32], out: &mut [u8]) -> Told
    requires { (length input.now ≤ most_input) × (t.old ≡ new_desk)
        × (desk_room ≤ length out.old) × (length out.old ≤ 16384) }
    ensures count { result.count ≡ length (run_text input.now) }
    ensures table { t.new ≡ (whole_run t.old input.now).table }
    ensures bytes { OnOk result.done (Appends (W.contents writer.old) (W.contents writer.new) (run_text input.now)) }
{
    let mut from = 0;
    let mut sent = 0;
    let mut done = Ok(());
    // A `while`: a turn goes on where the last one filled the buffer.
    while from < input.len() {
        let filled = fill(t, input, from, out);
        let told = hand_on(writer, input, sent, out, filled.at);
        sent += told.count;
        done = done.and(told.done);
        from = filled.next;
    }
    Told { count: sent, done }
}

// Puts the answer to an input that is too long or cannot be read: one unreadable line. The result is how long it is.
fn put_refusal(out: &mut [u8]) -> usize
    requires { answer_room ≤ length out.old }
    ensures { (take result out.new ≡ refused_text) × (result ≤ length out.new) }
{
    text_print::put_answer(out, 0, gate::refuse(Refusal::Unreadable))
}

// Answers an input that is too long.
fn refuse_all<W: Write>(writer: &mut W, input: &[u8], out: &mut [u8]) -> Told
    requires { (most_input < length input.now) × (answer_room ≤ length out.old) }
    ensures count { result.count ≡ length (run_text input.now) }
    ensures bytes { OnOk result.done (Appends (W.contents writer.old) (W.contents writer.new) (run_text input.now)) }
{
    let n = put_refusal(out);
    hand_on(writer, input, 0, out, n)
}

// Writes the answer to an input that could not be read to its end, of which document 01 says nothing.
fn refuse_unread<W: Write>(writer: &mut W, out: &mut [u8]) -> io::Result<()>
    requires { answer_room ≤ length out.old }
    ensures { OnOk result (Appends (W.contents writer.old) (W.contents writer.new) refused_text) }
{
    let n = put_refusal(out);
    writer.write_all(&out[..n])
}

// What failed in a run: a read, or a write, or both.
#[derive(Clone, Copy)]
pub enum Failure {
    Unread,
    Unwritten,
    Both,
}

// A write failed.
impl From<io::Error> for Failure {
    ghost from_gives = { λ _ failure. failure ≡ Unwritten };

    fn from(_error: io::Error) -> Self {
        Failure::Unwritten
    }
}

// Reads all, and then answers all. Unless a read or a write failed, a writer whose bytes are known has all that `stand`
// prints on what the reader had left, where that is known.
pub fn run<R: Read, W: Write>(reader: &mut R, writer: &mut W) -> Result<(), Failure>
    ensures answered { OnOk result
        (IfSome (R.remaining reader.old) (λ xs. Appends (W.contents writer.old) (W.contents writer.new) (run_text xs))) }
    ensures refused { result ≡ Err Failure.Unread
        → Appends (W.contents writer.old) (W.contents writer.new) refused_text }
{
    let mut input = [0u8; MOST_INPUT + 1];
    let mut t = [0u32; DESK_WORDS];
    let mut out = [0u8; 16384];
    let Ok(read) = stand_input::read_input(reader, &mut input) else {
        refuse_unread(writer, &mut out).or(Err(Failure::Both))?;
        return Err(Failure::Unread);
    };
    let done = match read {
        Input::Ended(n) => answer_all(writer, &input[..n], &mut t, &mut out).done,
        Input::Full => refuse_all(writer, &input, &mut out).done,
    };
    done?;
    Ok(())
}
