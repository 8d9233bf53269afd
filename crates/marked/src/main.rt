// M1 to M4 and M6 of document 01, run over the code: a line is the five numbers of a call, or the words of a table.
// After a tidy it says the true height too.
#![tactic(auto)]

use scope::{Answer, Head, Slot};
use std::io;
use std::io::Print;

// The words of tables of three and of four slots.
const THREE: usize = Head::WORDS + 3 * Slot::WORDS;

const FOUR: usize = Head::WORDS + 4 * Slot::WORDS;

// Where the left register of slot 2 stands.
const SECOND_LEFTH: usize = Head::WORDS + Slot::WORDS + Slot::LEFTH;

// The five numbers of an answer.
fn say(rt: &impl Print, a: Answer) -> io::Result<()> {
    println!(rt;
        "{} {} {} {} {} ",
        a.code, a.change, a.value, a.more, a.kind
    )
}

// All words of a table.
fn show(rt: &impl Print, t: &[u32]) -> io::Result<()> {
    for word in t {
        print!(rt; "{word} ")?;
    }
    println!(rt)
}

// Posts one piece poured at a stamp.
fn pour(rt: &impl Print, t: &mut [u32], key: u32) -> io::Result<()> {
    say(rt, index::post(t, key, 1, 1))
}

// The worth, and one firing.
fn fire_once(rt: &impl Print, t: &mut [u32]) -> io::Result<()> {
    say(rt, index::worth(t))?;
    say(rt, index::tidy(t, 1))
}

// Four firings, with the worth before and after each.
fn fire_four(rt: &impl Print, t: &mut [u32]) -> io::Result<()> {
    for _ in 0..4 {
        fire_once(rt, t)?;
    }
    say(rt, index::worth(t))
}

fn m1(rt: &impl Print) -> io::Result<()> {
    let mut t = [0u32; THREE];
    say(rt, index::post(&mut t, 480, 1200, 1))?;
    say(rt, index::post(&mut t, 510, 900, 1))?;
    say(rt, index::post(&mut t, 540, 750, 1))?;
    fire_four(rt, &mut t)?;
    show(rt, &t)
}

fn m2(rt: &impl Print) -> io::Result<()> {
    let mut t = [0u32; THREE];
    pour(rt, &mut t, 540)?;
    pour(rt, &mut t, 480)?;
    pour(rt, &mut t, 510)?;
    say(rt, index::tidy(&mut t, 10))?;
    say(rt, total::height(&t))?;
    show(rt, &t)
}

// The four postings of M3 and M4.
fn pour_four(rt: &impl Print, t: &mut [u32]) -> io::Result<()> {
    pour(rt, t, 40)?;
    pour(rt, t, 20)?;
    pour(rt, t, 10)?;
    pour(rt, t, 30)
}

fn m3(rt: &impl Print) -> io::Result<()> {
    let mut t = [0u32; FOUR];
    pour_four(rt, &mut t)?;
    say(rt, index::worth(&t))?;
    say(rt, index::tidy(&mut t, 10))?;
    say(rt, total::height(&t))?;
    show(rt, &t)
}

fn m4(rt: &impl Print) -> io::Result<()> {
    let mut t = [0u32; FOUR];
    pour_four(rt, &mut t)?;
    say(rt, index::fire(&mut t, 1, 1, 0))?;
    say(rt, index::fire(&mut t, 2, 1, 0))?;
    say(rt, index::fire(&mut t, 1, 0, 0))?;
    say(rt, index::fire(&mut t, 3, 0, 0))?;
    say(rt, index::worth(&t))?;
    say(rt, index::fire(&mut t, 5, 0, 0))?;
    say(rt, index::worth(&t))
}

// A chain to the left whose second node's left register is `height`; rule 1 at the root.
fn m6(rt: &impl Print, height: u32) -> io::Result<()> {
    let mut t = [0u32; THREE];
    pour(rt, &mut t, 30)?;
    pour(rt, &mut t, 20)?;
    pour(rt, &mut t, 10)?;
    t[SECOND_LEFTH] = height;
    say(rt, index::fire(&mut t, 1, 0, 0))?;
    show(rt, &t)
}

fn main(rt: HostRuntime) -> io::Result<()> {
    m1(&rt)?;
    m2(&rt)?;
    m3(&rt)?;
    m4(&rt)?;
    m6(&rt, 65535)?;
    m6(&rt, 65534)
}
