// The forms of a line, tried one after the other.
ghost use Rattle.std.specs.Prelude.{◌≡◌, true, [], ◌∷◌, None, map};
ghost use Rattle.text_fields.specs.Text.{starts_with};
ghost use Rattle.text_lines.specs.Form.{tried, command_of};
ghost use Rattle.text_lines.specs.Shape.{op_form};

use crate::command::{Command, Op, asked};
use text_fields::{Read, end, field};

// What every line of a form begins with.
const OP: &[u8] = b"op=";

// What a form looks like: the name behind `op=`, and the word before each of its numbers.
#[derive(Clone, Copy)]
pub struct Shape {
    pub op: Op,
    pub name: &'static [u8],
    pub words: &'static [&'static [u8]],
}

// The words before the numbers of a record.
const RECORD: &[&[u8]] = &[b" key=", b" pieces=", b" state="];

const KEY: &[&[u8]] = &[b" key="];

// The ten forms.
const SHAPES: [Shape; 10] = [
    Shape {
        op: Op::Post,
        name: b"post",
        words: RECORD,
    },
    Shape {
        op: Op::Amend,
        name: b"amend",
        words: RECORD,
    },
    Shape {
        op: Op::Fire,
        name: b"fire",
        words: &[b" rule=", b" holder=", b" side="],
    },
    Shape {
        op: Op::Drop,
        name: b"drop",
        words: KEY,
    },
    Shape {
        op: Op::Find,
        name: b"find",
        words: KEY,
    },
    Shape {
        op: Op::Rank,
        name: b"rank",
        words: &[b" r="],
    },
    Shape {
        op: Op::Total,
        name: b"total",
        words: KEY,
    },
    Shape {
        op: Op::Tidy,
        name: b"tidy",
        words: &[b" budget="],
    },
    Shape {
        op: Op::Worth,
        name: b"worth",
        words: &[],
    },
    Shape {
        op: Op::List,
        name: b"list",
        words: &[],
    },
];

impl Shape {
    // The command of a line of this form, which begins with its name: each word with a number, and nothing else.
    fn command(&self, s: &[u8]) -> Option<Command>
        requires { starts_with (op_form self.now).name s.now ≡ true }
        ensures { result ≡ tried (op_form self.now ∷ []) s.now None }
    {
        let mut read = Some(Read {
            a: 0,
            b: 0,
            c: 0,
            next: OP.len() + self.name.len(),
        });
        for w in self.words {
            read = field(s, w, read);
        }
        let Read { a, b, c, next: _ } = end(s, read)?;
        Some(asked(self.op, a, b, c))
    }
}

// The command of the first form that the line is of. Most lines have another name behind `op=` than the next form, and
// that is all that is looked at of it then.
fn first_command(s: &[u8], shapes: &[Shape]) -> Option<Command>
    ensures { result ≡ tried (map op_form shapes.now) s.now None }
{
    let named = s.strip_prefix(OP)?;
    for shape in shapes {
        if named.starts_with(shape.name) {
            let command = shape.command(s);
            if command.is_some() {
                return command;
            }
        }
    }
    None
}

// What a line asks for: none of the commands if it is over 80 bytes, or of no form.
pub fn parse(line: &[u8]) -> Option<Command>
    ensures { result ≡ command_of line.now }
{
    if 80 < line.len() {
        return None;
    }
    first_command(line, &SHAPES)
}
