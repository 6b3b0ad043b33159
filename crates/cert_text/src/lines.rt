ghost use Rattle.std.specs.Prelude.{◌≡◌, ◌+◌, [], ◌∷◌, MatchOption, None, Some};
ghost use Rattle.std.specs.Str.{bytes_eq};
ghost use Rattle.cert_text.specs.Lines.{cut, without_end};

/// Whether two texts are the same.
pub(crate) fn is_text(text: &[u8], other: &[u8]) -> bool
    ensures { result ≡ bytes_eq text.now other.now }
{
    text == other
}

/// The first line of the bytes, with its end, and what follows it; nothing if there are no bytes.
pub fn first_line(bytes: &[u8]) -> Option<(&[u8], &[u8])>
    ensures { MatchOption result (cut bytes.now ≡ []) (λ parts. cut bytes.now ≡ parts.0.now ∷ cut parts.1.now) }
{
    if bytes.is_empty() {
        return None;
    }
    for (i, byte) in bytes.iter().enumerate() {
        if *byte == b'\n' {
            return Some(bytes.split_at(i + 1));
        }
    }
    Some((bytes, &[]))
}

/// What stands before the line's end, if it has one.
pub fn without_end(line: &[u8]) -> Option<&[u8]>
    ensures { MatchOption result (without_end line.now ≡ None) (λ text. without_end line.now ≡ Some text.now) }
{
    if line.ends_with(b"\n") {
        Some(&line[..line.len() - 1])
    } else {
        None
    }
}
