// A line read from left to right: words, numbers, and its end.
ghost use Rattle.std.specs.Prelude.{◌≡◌, drop};
ghost use Rattle.text_fields.specs.Text.{starts_with};
ghost use Rattle.text_fields.specs.Read.{word_then, number_then, field_then, end_then};

use crate::input::rest;
use crate::number::{Number, number_at};

// How far a line is read: the last three numbers, and the place after them. A line of another form has none.
#[derive(Clone, Copy)]
pub struct Read {
    pub a: u32,
    pub b: u32,
    pub c: u32,
    pub next: usize,
}

// The word w stands at `at`.
fn starts(s: &[u8], at: usize, w: &[u8]) -> bool
    ensures { result ≡ starts_with w.now (drop at s.now) }
{
    rest(s, at).starts_with(w)
}

// On over the word w.
pub fn word(s: &[u8], w: &[u8], seen: Option<Read>) -> Option<Read>
    ensures { result ≡ word_then s.now w.now seen }
{
    let Read { a, b, c, next } = seen?;
    if !starts(s, next, w) {
        return None;
    }
    let next = next + w.len();
    Some(Read { a, b, c, next })
}

// On over a number.
fn number(s: &[u8], seen: Option<Read>) -> Option<Read>
    ensures { result ≡ number_then s.now seen }
{
    let Read { a: _, b, c, next } = seen?;
    let Number { value, next } = number_at(s, next)?;
    Some(Read {
        a: b,
        b: c,
        c: value,
        next,
    })
}

// On over a word with a number right after it.
pub fn field(s: &[u8], w: &[u8], seen: Option<Read>) -> Option<Read>
    ensures { result ≡ field_then s.now w.now seen }
{
    number(s, word(s, w, seen))
}

// The line ends there.
pub fn end(s: &[u8], seen: Option<Read>) -> Option<Read>
    ensures { result ≡ end_then s.now seen }
{
    let read = seen?;
    (read.next == s.len()).then_some(read)
}
