//! Parting a line into its first word and the rest.
ghost use Rattle.std.specs.Prelude.{◌≡◌};
ghost use Rattle.console.specs.Words.{absent, after_word, trimmed, unindented, word, word_length};

/// What ends a word.
const SPACE: u8 = b' ';

/// What a remark begins with.
const REMARK: u8 = b'#';

// Kept as functions, `trim` and `trim_start`: they say the library's trims in the words of `specs/`, once.
/// The text without the white space at its ends.
pub fn trim(text: &[u8]) -> &[u8]
    ensures { result.now ≡ trimmed text.now }
{
    text.trim_ascii()
}

/// The text without the white space in front.
pub fn trim_start(text: &[u8]) -> &[u8]
    ensures { result.now ≡ unindented text.now }
{
    text.trim_ascii_start()
}

/// The first word of the text, and what follows it.
pub fn split_word(text: &[u8]) -> (&[u8], &[u8])
    ensures first { result.0.now ≡ word text.now }
    ensures rest { result.1.now ≡ after_word text.now }
{
    text.split_at(word_length(text))
}

/// How many bytes stand before the first space.
fn word_length(text: &[u8]) -> usize
    ensures { result ≡ word_length text.now }
{
    text.iter().position(|c| *c == SPACE).unwrap_or(text.len())
}

/// Whether there is no word, or it begins a remark.
pub fn is_absent(word: &[u8]) -> bool
    ensures { result ≡ absent word.now }
{
    word.first().is_none_or(|first| *first == REMARK)
}
