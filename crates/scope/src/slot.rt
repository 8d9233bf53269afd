// The words before the slots, the words of a slot with their places, and what its state can be.
ghost use Rattle.std.specs.Prelude.{◌≡◌};
ghost use Rattle.scope.specs.Table.{zero_slot, with_record};

// A word before the slots, by its place.
#[derive(Clone, Copy, Debug, PartialEq, Eq)]
pub struct Head {
    pub place: usize,
}

impl Head {
    pub const ROOT: usize = 0;

    pub const COUNT: usize = 1;

    pub const CHANGE: usize = 2;

    pub const ZERO: usize = 3;

    pub const WORDS: usize = 4;
}

#[derive(Clone, Copy, Debug, PartialEq, Eq)]
pub struct Slot {
    pub state: u32,
    pub key: u32,
    pub pieces: u32,
    pub left: u32,
    pub right: u32,
    pub lefth: u32,
    pub righth: u32,
    pub last: u32,
}

impl Slot {
    pub const STATE: usize = 0;

    pub const KEY: usize = 1;

    pub const PIECES: usize = 2;

    pub const LEFT: usize = 3;

    pub const RIGHT: usize = 4;

    pub const LEFTH: usize = 5;

    pub const RIGHTH: usize = 6;

    pub const LAST: usize = 7;

    pub const WORDS: usize = 8;

    pub const MOST_PIECES: u32 = 1000000;

    // A slot of zeros.
    pub fn zeros() -> Slot
        ensures { result ≡ zero_slot }
    {
        Slot {
            state: State::FREE,
            key: 0,
            pieces: 0,
            left: 0,
            right: 0,
            lefth: 0,
            righth: 0,
            last: 0,
        }
    }

    // The slot with another record; its links, its registers and its last word stay.
    pub fn with_record(self, state: u32, key: u32, pieces: u32) -> Slot
        ensures { result ≡ with_record self state key pieces }
    {
        Slot {
            state,
            key,
            pieces,
            left: self.left,
            right: self.right,
            lefth: self.lefth,
            righth: self.righth,
            last: self.last,
        }
    }
}

// The numbers of the states. A slot holds its words as they stand, damaged ones too, so its state stays a number.
#[derive(Clone, Copy, Debug, PartialEq, Eq)]
pub struct State {
    pub number: u32,
}

impl State {
    pub const FREE: u32 = 0;

    pub const POURED: u32 = 1;

    pub const REMELT: u32 = 2;
}
