// What a line can ask for.
ghost use Rattle.std.specs.Prelude.{◌≡◌};
ghost use Rattle.text_lines.specs.Form.{asked};

// The ten names that a line can begin with.
#[derive(Clone, Copy)]
pub enum Op {
    Post,
    Amend,
    Drop,
    Find,
    Rank,
    Total,
    Worth,
    Fire,
    Tidy,
    List,
}

// The same with their numbers, in the order of their fields.
#[derive(Clone, Copy)]
pub enum Command {
    Post { key: u32, pieces: u32, state: u32 },
    Amend { key: u32, pieces: u32, state: u32 },
    Drop { key: u32 },
    Find { key: u32 },
    Rank { r: u32 },
    Total { key: u32 },
    Worth,
    Fire { rule: u32, holder: u32, side: u32 },
    Tidy { budget: u32 },
    List,
}

// The command of a name, given the last three numbers of the line.
pub fn asked(op: Op, a: u32, b: u32, c: u32) -> Command
    ensures { result ≡ asked op a b c }
{
    match op {
        Op::Post => Command::Post {
            key: a,
            pieces: b,
            state: c,
        },
        Op::Amend => Command::Amend {
            key: a,
            pieces: b,
            state: c,
        },
        Op::Drop => Command::Drop { key: c },
        Op::Find => Command::Find { key: c },
        Op::Rank => Command::Rank { r: c },
        Op::Total => Command::Total { key: c },
        Op::Worth => Command::Worth,
        Op::Fire => Command::Fire {
            rule: a,
            holder: b,
            side: c,
        },
        Op::Tidy => Command::Tidy { budget: c },
        Op::List => Command::List,
    }
}
