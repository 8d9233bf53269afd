// What `op=list` prints: the count and the root, and then each record in the order of the keys.
#![tactic(auto)]

ghost use Rattle.std.specs.Prelude.{◌≡◌, ◌+◌, ◌*◌, ◌≤◌, length};
ghost use Rattle.spelling.specs.Ready.{Headed};
ghost use Rattle.in_order.specs.Listed.{InOrder};
ghost use Rattle.text_print.specs.Put.{PutIn};
ghost use Rattle.text_print.specs.Line.{answer_room, record_room};
ghost use Rattle.text_list.specs.List.{all_lines, list_answer, listed, list_text, list_room};

use gate::SoundTable;
use scope::{Answer, Slots};

// Puts the lines of the records in some slots: all those of a sound table.
fn put_all(table: SoundTable, slots: &[usize], out: &mut [u8], at: usize) -> usize
    requires { InOrder table.words.now table.slots slots.now (length slots.now)
        × (at + record_room * table.slots ≤ length out.old) }
    ensures { PutIn out.old at (all_lines table.entry.words.now table.entry.slots) out.new result
        (record_room * table.entry.slots) }
{
    let mut p = at;
    for k in slots {
        p = text_print::put_record(out, p, *k, words::slot_at(table.words, *k));
    }
    p
}

// Puts the lines of all records of a sound table: they are listed by one walk, and printed from the list.
#[tactic(auto, using(gate::proofs::Tables::table_whole))]
fn put_lines(table: SoundTable, out: &mut [u8], at: usize) -> usize
    requires { at + record_room * table.slots ≤ length out.old }
    ensures { PutIn out.old at (all_lines table.entry.words.now table.entry.slots) out.new result
        (record_room * table.entry.slots) }
{
    let mut list = [0usize; Slots::MOST];
    let n = in_order::order_in(table.words, table.slots, &mut list);
    put_all(table, &list[..n], out, at)
}

// What list answers: the count and the root.
fn list_answer(t: &[u32]) -> Answer
    requires { Headed t.now }
    ensures { result ≡ list_answer t.now }
{
    let count = u64::from(words::records(t));
    let root = u64::from(words::root(t));
    gate::accept(u64::from(words::change(t)), count, root, 0)
}

// Puts all that list prints of a sound table.
fn put_listed(table: SoundTable, out: &mut [u8], at: usize) -> usize
    requires { at + (answer_room + record_room * table.slots) ≤ length out.old }
    ensures { PutIn out.old at (listed table.entry.words.now table.entry.slots) out.new result
        (answer_room + record_room * table.entry.slots) }
{
    let p = text_print::put_answer(out, at, list_answer(table.words));
    put_lines(table, out, p)
}

// Puts what list prints: the place after it.
pub fn put_list(t: &[u32], out: &mut [u8], at: usize) -> usize
    requires { at + list_room (length t.now) ≤ length out.old }
    ensures { PutIn out.old at (list_text t.now) out.new result
        (list_room (length t.now)) }
{
    match sound::enter_sound(t, true) {
        Err(why) => text_print::put_answer(out, at, gate::refuse(why)),
        Ok(table) => put_listed(table, out, at),
    }
}
