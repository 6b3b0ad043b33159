ghost use Rattle.std.specs.Prelude.{◌≡◌, ◌≤◌, ◌+◌, length};
ghost use Rattle.question_text.specs.InputLines.{after_first, first_line, without_return};

use fen_text::split_part;

/// The line without the carriage return at its end, if there is one.
fn without_return(line: &[u8]) -> &[u8]
    ensures { result.now ≡ without_return line.now }
{
    if line.ends_with(b"\r") {
        &line[..line.len() - 1]
    } else {
        line
    }
}

/// The first line of the input, without its end, and what follows it. A line ends with a line feed, and a carriage return before that
/// belongs to its end.
pub fn split_first_line(input: &[u8]) -> (&[u8], &[u8])
    ensures line { result.0.now ≡ first_line input.now }
    ensures rest { result.1.now ≡ after_first input.now }
    ensures short { length result.0.now + length result.1.now ≤ length input.now }
{
    let (line, rest) = split_part(input, b'\n');
    let Some(rest) = rest else {
        return (line, &[]);
    };
    (without_return(line), rest)
}
