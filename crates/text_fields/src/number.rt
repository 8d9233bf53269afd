// Numbers in a line.
ghost use Rattle.std.specs.Prelude.{◌≡◌};
ghost use Rattle.text_fields.specs.Number.{digits_at, number_at};

use crate::input::rest;

// A number that stands in a line, and the place after it.
#[derive(Clone, Copy)]
pub struct Number {
    pub value: u32,
    pub next: usize,
}

// What the digits from `at` on are worth, if that is within 32 bits.
fn digits_at(s: &[u8], at: usize) -> Option<Number>
    ensures { result ≡ digits_at s.now at }
{
    let mut value: u32 = 0;
    let mut next = at;
    for c in rest(s, at) {
        if !c.is_ascii_digit() {
            break;
        }
        value = value.checked_mul(10)?.checked_add(u32::from(*c - b'0'))?;
        next += 1;
    }
    Some(Number { value, next })
}

// The number at `at`: decimal, with no leading zero, within 32 bits.
pub fn number_at(s: &[u8], at: usize) -> Option<Number>
    ensures { result ≡ number_at s.now at }
{
    let number = digits_at(s, at)?;
    if number.next <= at {
        return None;
    }
    if s[at] == b'0' && at + 1 < number.next {
        return None;
    }
    Some(number)
}
