//! Words of a line.

ghost use Rattle.std.specs.Prelude.{◌≡◌, length, ◌∷◌, [], MatchOption, not};
ghost use Rattle.std.specs.List.{position, position_or_len};
ghost use Rattle.std.specs.Str.{bytes_eq};
ghost use Rattle.problem_text.specs.Lines.{is_blank, words};

/// The first word of a text and the text after it; `None` exactly when there is no word.
pub fn next_word(text: &[u8]) -> Option<(&[u8], &[u8])>
    ensures { MatchOption result (words text.now ≡ [])
        (λ r. words text.now ≡ r.0.now ∷ words r.1.now) }
{
    let (_, from_word) = text.split_at(blanks_of(text));
    if from_word.is_empty() {
        return None;
    }
    Some(from_word.split_at(run_of(from_word)))
}

/// A text without the blanks that it begins with.
pub fn after_blanks(text: &[u8]) -> &[u8]
    ensures { words result.now ≡ words text.now }
{
    text.split_at(blanks_of(text)).1
}

/// How many blanks a text begins with.
fn blanks_of(text: &[u8]) -> usize
    ensures { result ≡ position_or_len (λ b. not (is_blank b)) text.now }
{
    first_word_byte(text).unwrap_or(text.len())
}

fn first_word_byte(text: &[u8]) -> Option<usize>
    ensures { result ≡ position (λ b. not (is_blank b)) text.now }
{
    text.iter().position(|byte| !is_blank_byte(*byte))
}

/// How many bytes that are not blanks a text begins with.
fn run_of(text: &[u8]) -> usize
    ensures { result ≡ position_or_len is_blank text.now }
{
    first_blank(text).unwrap_or(text.len())
}

fn first_blank(text: &[u8]) -> Option<usize>
    ensures { result ≡ position is_blank text.now }
{
    text.iter().position(|byte| is_blank_byte(*byte))
}

/// Whether a byte separates words.
pub fn is_blank_byte(byte: u8) -> bool
    ensures { result ≡ is_blank byte }
{
    byte == b' ' || byte == b'\t'
}

/// Whether a word is this one.
pub fn is_word(word: &[u8], sought: &[u8]) -> bool
    ensures { result ≡ bytes_eq word.now sought.now }
{
    word == sought
}
