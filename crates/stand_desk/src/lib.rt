// One step of `stand`: a line read, carried out on the table and answered in a lent buffer.
#![tactic(auto)]

ghost use Rattle.std.specs.Prelude.{◌≡◌, ◌+◌, ◌≤◌, length};
ghost use Rattle.text_print.specs.Put.{PutIn};
ghost use Rattle.text_list.specs.List.{list_room};
ghost use Rattle.stand_desk.specs.Step.{wish_of, reply_of, table_after, reply_text, step_table, step_text};

use scope::{Answer, Head, Refusal, Slot};
use text_lines::Command;

// The table of `stand`: its slots, its words, and the most bytes that a line on it prints.
pub const DESK_SLOTS: usize = 15;

pub const DESK_WORDS: usize = Head::WORDS + Slot::WORDS * DESK_SLOTS;

pub const DESK_ROOM: usize = 133 + 214 * DESK_SLOTS;

// What is to be printed: an answer, or the whole list. Both are replies, so this is no Option.
#[derive(Clone, Copy)]
pub enum Reply {
    Say(Answer),
    List,
}

// Carries out what a line asks for: one that asks for nothing is unreadable.
fn carry_out(t: &mut [u32], command: Option<Command>) -> Reply
    ensures { (result ≡ reply_of t.old (wish_of command))
        × (t.new ≡ table_after t.old (wish_of command)) }
{
    let Some(command) = command else {
        return Reply::Say(gate::refuse(Refusal::Unreadable));
    };
    match command {
        Command::Post { key, pieces, state } => Reply::Say(index::post(t, key, pieces, state)),
        Command::Amend { key, pieces, state } => Reply::Say(index::amend(t, key, pieces, state)),
        Command::Drop { key } => Reply::Say(index::drop(t, key)),
        Command::Find { key } => Reply::Say(index::find(t, key)),
        Command::Rank { r } => Reply::Say(index::rank(t, r)),
        Command::Total { key } => Reply::Say(index::total(t, key)),
        Command::Worth => Reply::Say(index::worth(t)),
        Command::Fire { rule, holder, side } => Reply::Say(index::fire(t, rule, holder, side)),
        Command::Tidy { budget } => Reply::Say(index::tidy(t, budget)),
        Command::List => Reply::List,
    }
}

// Puts a reply into the buffer: the place after it.
fn put_reply(t: &[u32], reply: Reply, out: &mut [u8], at: usize) -> usize
    requires { at + list_room (length t.now) ≤ length out.old }
    ensures { PutIn out.old at (reply_text t.now reply) out.new result
        (list_room (length t.now)) }
{
    match reply {
        Reply::Say(a) => text_print::put_answer(out, at, a),
        Reply::List => text_list::put_list(t, out, at),
    }
}

// Reads a line, carries it out, and puts what it prints into the buffer: the place after it.
pub fn step(t: &mut [u32], line: &[u8], out: &mut [u8], at: usize) -> usize
    requires { at + list_room (length t.old) ≤ length out.old }
    ensures put_in { PutIn out.old at (step_text t.old line.now) out.new result
        (list_room (length t.old)) }
    ensures t_after { t.new ≡ step_table t.old line.now }
{
    let reply = carry_out(t, text_lines::parse(line));
    put_reply(t, reply, out, at)
}
