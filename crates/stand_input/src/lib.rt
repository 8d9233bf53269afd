// An input, read to its end into a buffer.
#![tactic(auto)]

ghost use Rattle.std.specs.Prelude.{◌≡◌, ℕ, ◌+◌, ◌≤◌, ◌<◌, length, take, drop, [], Ok, IfOk, OnErr};
ghost use Rattle.std.specs.Io.KnownBytes.{Consumes, IsAtEnd};
ghost use Rattle.stand_input.specs.Input.{bytes_read};

use std::io;
use std::io::Read;

// Reads once into buf: no bytes at the end of the input. Where it is known what the reader had left, those bytes come
// from there, and none where the read failed.
pub fn read_once<R: Read>(reader: &mut R, buf: &mut [u8]) -> io::Result<usize>
    ensures count_in_bounds { IfOk result (λ count. count ≤ length buf.old) }
    ensures bytes { IfOk result
        (λ count. Consumes (R.remaining reader.old) (R.remaining reader.new) (take count buf.new)) }
    ensures none_lost { OnErr result (Consumes (R.remaining reader.old) (R.remaining reader.new) []) }
    ensures end { IfOk result (λ count. count ≡ 0 → 0 < length buf.old → IsAtEnd (R.remaining reader.new)) }
{
    reader.read(buf)
}

// Reads once into buf from n on, and keeps what stands before.
pub fn read_at<R: Read>(reader: &mut R, buf: &mut [u8], n: usize) -> io::Result<usize>
    requires { n ≤ length buf.old }
    ensures count_in_bounds { IfOk result (λ count. n + count ≤ length buf.old) }
    ensures buf_unchanged { take n buf.new ≡ take n buf.old }
    ensures bytes { IfOk result
        (λ count. Consumes (R.remaining reader.old) (R.remaining reader.new) (take count (drop n buf.new))) }
    ensures none_lost { OnErr result (Consumes (R.remaining reader.old) (R.remaining reader.new) []) }
    ensures end { IfOk result (λ count. count ≡ 0 → n < length buf.old → IsAtEnd (R.remaining reader.new)) }
{
    read_once(reader, &mut buf[n..])
}

// How an input was read: it ended after so many bytes, or it filled the buffer. Both are good, so this is no Option.
#[derive(Clone, Copy)]
pub enum Input {
    Ended(usize),
    Full,
}

// A read failed, after so many bytes.
#[derive(Clone, Copy, Debug)]
pub struct ReadFailed {
    pub count: usize,
}

// Reads an input until it ends, a read fails or buf is full.
pub fn read_input<R: Read>(reader: &mut R, buf: &mut [u8]) -> Result<Input, ReadFailed>
    ensures count_in_bounds { bytes_read (length buf.old) result ≤ length buf.old }
    ensures ended { (n : ℕ) → result ≡ Ok (Input.Ended n) → (n < length buf.old) × IsAtEnd (R.remaining reader.new) }
    ensures bytes { Consumes (R.remaining reader.old) (R.remaining reader.new)
        (take (bytes_read (length buf.old) result) buf.new) }
{
    let mut n = 0;
    // A `while`: a turn goes on where the last read ended.
    while n < buf.len() {
        match read_at(reader, buf, n) {
            Ok(0) => return Ok(Input::Ended(n)),
            Ok(count) => n += count,
            Err(_) => return Err(ReadFailed { count: n }),
        }
    }
    Ok(Input::Full)
}
