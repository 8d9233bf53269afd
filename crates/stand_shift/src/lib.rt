// A run of `stand`: the lines of an input, answered one after the other on one table.
#![tactic(auto)]

pub mod run;

ghost use Rattle.std.specs.Prelude.{◌≤◌, ◌<◌, ◌≡◌, length};
ghost use Rattle.stand_desk.specs.Desk.{desk_room, desk_words};
ghost use Rattle.stand_shift.specs.Run.{AnsweredSo};

use stand_desk::DESK_ROOM;

// Where the next line begins, and how much of the buffer is filled.
#[derive(Clone, Copy)]
pub struct Filled {
    pub next: usize,
    pub at: usize,
}

// Answers the lines from the place `from` on, as many as have room in the buffer.
pub fn fill(t: &mut [u32], input: &[u8], from: usize, out: &mut [u8]) -> Filled
    requires { (desk_room ≤ length out.old) × (length t.old ≡ desk_words) }
    ensures answered_so { AnsweredSo t.old input.now from t.new out.new
        result.next result.at }
    ensures from_lt_next { from < length input.now → from < result.next }
{
    let last = out.len() - DESK_ROOM;
    let mut next = from;
    let mut at = 0;
    // A `while`: a turn goes on where a line ended, and where there is no room the next call goes on.
    while next < input.len() {
        if last < at {
            return Filled { next, at };
        }
        let end = text_fields::line_end(input, next);
        at = stand_desk::step(t, &input[next..end], out, at);
        next = end + 1;
    }
    Filled { next, at }
}
