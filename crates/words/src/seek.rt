// The search for a free slot, place by place.
ghost use Rattle.spelling.specs.Ready.{Sized, Free};

use scope::{Head, Slot, State};

// The lowest free slot, 0 for none. A turn of the loop looks at two slots, which saves it half of its jumps.
pub fn free_slot(t: &[u32], c: usize) -> usize
    requires { Sized t.now c }
    ensures { Free t.now c result }
{
    let mut b: usize = Head::WORDS;
    while b + Slot::WORDS < t.len() {
        let next = b + Slot::WORDS;
        if t[b] == State::FREE {
            return b / Slot::WORDS + 1;
        }
        if t[next] == State::FREE {
            return next / Slot::WORDS + 1;
        }
        b = next + Slot::WORDS;
    }
    if b < t.len() {
        if t[b] == State::FREE {
            return b / Slot::WORDS + 1;
        }
    }
    0
}
