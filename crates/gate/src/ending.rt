// How an accepted call ends: the header's numbers are written, and the answer names a slot.
ghost use Rattle.std.specs.Prelude.{◌<◌};
ghost use Rattle.scope.specs.Numbers.{last_change};
ghost use Rattle.spelling.specs.Ready.{Headed};
ghost use Rattle.gate.specs.Ends.{Does, next_numbered};

use crate::call::accept;
use scope::Answer;

// One change more than before.
pub fn next_change(t: &mut [u32], before: u32, slot: usize) -> Answer
    requires { Headed t.old × (before < last_change) }
    ensures { Does (next_numbered t.old before slot) result t.new }
{
    let change = before + 1;
    words::put_change(t, change);
    accept(u64::from(change), slot as u64, 0, 0)
}
