// Text and numbers put into a lent buffer.
// Not by `write!`: it answers a Result that no contract says is Ok, and these functions cannot fail.
// Buffer and place stay two parameters: of a slice lent by itself it is known that its length stays, and behind a struct
// of both each function would have to promise it.
ghost use Rattle.std.specs.Prelude.{◌+◌, ◌≤◌, length};
ghost use Rattle.text_fields.specs.Decimal.{decimal, field};
ghost use Rattle.text_print.specs.Put.{Put, PutIn};

// Puts n in decimal at `at`: the place after it.
pub fn put_number(out: &mut [u8], at: usize, n: u64) -> usize
    requires { at + length (decimal n) ≤ length out.old }
    ensures { Put out.old at (decimal n) out.new result }
{
    if n < 10 {
        out[at] = b'0' + n as u8;
        return at + 1;
    }
    let end = put_number(out, at, n / 10);
    out[end] = b'0' + (n % 10) as u8;
    end + 1
}

// Puts a text at `at`: the place after it.
pub fn put_text(out: &mut [u8], at: usize, text: &[u8]) -> usize
    requires { at + length text.now ≤ length out.old }
    ensures { Put out.old at text.now out.new result }
{
    let next = at + text.len();
    out[at..next].copy_from_slice(text);
    next
}

// Puts a word and a number at `at`: the place after them, at most 20 digits on.
pub fn put_field(out: &mut [u8], at: usize, word: &[u8], n: u64) -> usize
    requires { at + (length word.now + 20) ≤ length out.old }
    ensures { PutIn out.old at (field word.now n) out.new result (length word.now + 20) }
{
    let p = put_text(out, at, word);
    put_number(out, p, n)
}
