ghost use Rattle.std.specs.Prelude.{◌≡◌};
ghost use Rattle.price_text.specs.Words.{is_slash};

/// Whether the word is a `/`.
pub fn is_slash(word: &[u8]) -> bool
    ensures { result ≡ is_slash word.now }
{
    word == b"/".as_slice()
}
