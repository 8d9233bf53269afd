// The call tidy.
ghost use Rattle.scope.specs.Calls.{Tidy, Promise};
ghost use Rattle.spelling.specs.Whole.{Whole};
ghost use Rattle.tidy.specs.Run.{TidiedSo};

use crate::notes::Notes;
use crate::review::review_all;
use scope::Answer;
use tidy_agenda::Agenda;
use tidy_holders::Holders;

// On a sound table: each slot is noted where it hangs, and listed where a rule may be due. The notes are made here and
// lent: handed out by a function they are copied, and take twice the stack.
pub fn tidied(t: &mut [u32], c: usize, budget: u32) -> Answer
    requires { Whole t.old c }
    ensures { TidiedSo t.old c budget result t.new }
{
    let change = words::change(t);
    let mut notes = Notes {
        holders: Holders { links: [0; 4096] },
        agenda: Agenda::new(),
    };
    notes.holders.note_all(t, c);
    review_all(t, c, &mut notes.agenda);
    let e = notes.run_budget(t, c, budget);
    gate::accept(u64::from(change), u64::from(e.made), u64::from(e.quiet), 0)
}

pub fn tidy(t: &mut [u32], budget: u32) -> Answer
    ensures { Promise (Tidy budget) t.old result t.new }
{
    match sound::enter_sound(t, true) {
        Err(why) => gate::refuse(why),
        Ok(table) => {
            let slots = table.slots;
            tidied(t, slots, budget)
        }
    }
}
