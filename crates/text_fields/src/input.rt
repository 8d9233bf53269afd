// The lines of an input, and what stands from a place on.
ghost use Rattle.std.specs.Prelude.{◌≡◌, ◌≤◌, length, drop};
ghost use Rattle.text_fields.specs.Text.{first_line, LineEnds};

// What stands from `at` on: nothing where that is past the end.
pub(crate) fn rest(s: &[u8], at: usize) -> &[u8]
    ensures { result.now ≡ drop at s.now }
{
    s.get(at..).unwrap_or(&[])
}

// How long the first line is: up to the first newline, or all.
fn line_length(s: &[u8]) -> usize
    ensures { result ≡ length (first_line s.now) }
{
    s.iter().position(|c| *c == b'\n').unwrap_or(s.len())
}

// Where the line that begins at `from` ends: at the first newline, or at the end of the input.
pub fn line_end(s: &[u8], from: usize) -> usize
    requires { from ≤ length s.now }
    ensures { LineEnds s.now from result }
{
    from + line_length(rest(s, from))
}
