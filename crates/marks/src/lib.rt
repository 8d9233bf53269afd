// One mark bit for each slot, packed in 64-bit words.
#![tactic(auto)]

ghost use Rattle.std.specs.Prelude.{◌≡◌, ◌<◌, ◌/◌, eqb, get_or, replicate, List, ℕ};
ghost use Rattle.marks.specs.Marks.{bit_at, WordPut, Marked, Unmarked, Past};

use std::marker::Model;

// A word with bit b on, and every other as it was.
pub fn with_bit(word: u64, b: usize) -> u64
    requires { b < 64 }
    ensures { WordPut 1 word b result }
{
    word | (1 << b)
}

// A word with bit b off, and every other as it was.
pub fn without_bit(word: u64, b: usize) -> u64
    requires { b < 64 }
    ensures { WordPut 0 word b result }
{
    word & !(1 << b)
}

// The marks of the slots below 4,096. Any words are marks.
#[derive(Drop)]
pub struct Marks {
    pub words: [u64; 64],
}

// A contract sees the words.
impl Model for Marks {
    ghost Value = { List ℕ };

    ghost view = { λ m. m.words };
}

impl Marks {
    // A word with every bit on.
    pub const ALL_ON: u64 = u64::MAX;

    // No slot is marked.
    pub fn new() -> Self
        ensures { result ≡ replicate 64 0 }
    {
        Marks { words: [0; 64] }
    }

    // Whether slot k is marked.
    pub fn marked(&self, k: usize) -> bool
        requires { k < 4096 }
        ensures { result ≡ eqb (bit_at self.now k) 1 }
    {
        let at = k / 64;
        let b = k % 64;
        let w = self.words[at];
        (w >> b) & 1 == 1
    }

    // Marks slot k, and no other.
    pub fn mark(&mut self, k: usize)
        requires { k < 4096 }
        ensures { Marked self.old k self.new }
    {
        let at = k / 64;
        self.words[at] = with_bit(self.words[at], k % 64);
    }

    // Takes the mark of slot k, and no other, and gives what is left in its word.
    pub fn unmark(&mut self, k: usize) -> u64
        requires { k < 4096 }
        ensures unmarked { Unmarked self.old k self.new }
        ensures left { result ≡ get_or self.new (k / 64) 0 }
    {
        let at = k / 64;
        let left = without_bit(self.words[at], k % 64);
        self.words[at] = left;
        left
    }

    // The marks of 64 slots.
    pub fn word(&self, i: usize) -> u64
        requires { i < 64 }
        ensures { result ≡ get_or self.now i 0 }
    {
        self.words[i]
    }

    // Where to look after slot k: past all the slots of its word, if that is the given one.
    pub fn past(&self, k: usize, whole: u64) -> usize
        requires { k < 4096 }
        ensures { Past self.now k whole result }
    {
        let at = k / 64;
        if self.words[at] == whole {
            64 * at + 64
        } else {
            k + 1
        }
    }
}
