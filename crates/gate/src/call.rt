// How a call begins and how it answers.
ghost use Rattle.std.specs.Prelude.{◌≡◌, ok_or};
ghost use Rattle.scope.specs.Table.{slots_in, word, change_word};
ghost use Rattle.scope.specs.Fit.{header_ok};
ghost use Rattle.scope.specs.Answers.{code_of, refusal, absence, denial, accepted, gate};
ghost use Rattle.scope.specs.declared.answer.Refusal.TheVariants.{WrongLength};
ghost use Rattle.spelling.specs.Ready.{Headed};
ghost use Rattle.gate.specs.Opens.{Opens};

use crate::table::Table;
use crate::tests::header_ok;
use scope::{Answer, Denial, Head, Passed, Refusal, Slot, Slots};

// The slots of a table of so many words.
#[tactic(auto, unfolding(scope::specs::Table::slots_in))]
pub fn capacity(n: usize) -> Result<Slots, Refusal>
    ensures { result ≡ ok_or (slots_in n) WrongLength }
{
    if n % Slot::WORDS == Head::WORDS {
        Slots::try_from(n / Slot::WORDS)
    } else {
        Err(Refusal::WrongLength)
    }
}

// Tests 1 to 3: the length, the arguments, the header.
#[tactic(auto, unfolding(scope::specs::Answers::gate), using(spelling::proofs::Laws::slots_sized))]
pub fn enter(t: &[u32], in_range: bool) -> Result<Table<'_>, Refusal>
    ensures { Opens t.now (gate t.now in_range (λ c. header_ok c t.now)) result }
{
    let slots = capacity(t.len())?.count;
    if !in_range {
        return Err(Refusal::OutOfRange);
    }
    if header_ok(slots, t) {
        Ok(Table { words: t, slots })
    } else {
        Err(Refusal::Damaged)
    }
}

// The number of a refusal.
pub fn code(why: Refusal) -> u64
    ensures { result ≡ code_of why }
{
    why as u64
}

pub fn refuse(why: Refusal) -> Answer
    ensures { result ≡ refusal why }
{
    Answer {
        code: code(why),
        change: 0,
        value: 0,
        more: 0,
        kind: 0,
    }
}

// The answer to a key that is absent: with the last key passed on each side of the walk to it.
pub fn absent(passed: Passed) -> Answer
    ensures { result ≡ absence passed }
{
    Answer {
        code: code(Refusal::KeyAbsent),
        change: 0,
        value: u64::from(passed.below),
        more: u64::from(passed.above),
        kind: 0,
    }
}

// The answer to an amend or a drop that is denied.
pub fn deny(why: Denial) -> Answer
    ensures { result ≡ denial why }
{
    match why {
        Denial::Refused(refusal) => refuse(refusal),
        Denial::Absent(passed) => absent(passed),
    }
}

pub fn accept(change: u64, value: u64, more: u64, kind: u64) -> Answer
    ensures { result ≡ accepted change value more kind }
{
    Answer {
        code: 0,
        change,
        value,
        more,
        kind,
    }
}

// An accepted call that says one number and changes nothing.
pub fn told(t: &[u32], value: u64) -> Answer
    requires { Headed t.now }
    ensures { result ≡ accepted (word t.now change_word) value 0 0 }
{
    accept(u64::from(words::change(t)), value, 0, 0)
}
