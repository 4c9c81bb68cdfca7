//! Words of a text.

ghost use Rattle.std.specs.Prelude.{◌≡◌, length, ◌∷◌, [], MatchOption, not};
ghost use Rattle.std.specs.List.{position, position_or_len};
ghost use Rattle.wcsp_text.specs.Words.{is_separator, words};

/// The first word of a text and the text after it; `None` exactly when there is no word.
///
/// Spaces, tabs, LF and CR separate words.
pub fn next_word(text: &[u8]) -> Option<(&[u8], &[u8])>
    ensures { MatchOption result (words text.now ≡ [])
        (λ r. words text.now ≡ record { text = r.0.now; after = length r.1.now } ∷ words r.1.now) }
{
    let (_, from_word) = text.split_at(gap_of(text));
    if from_word.is_empty() {
        return None;
    }
    Some(from_word.split_at(run_of(from_word)))
}

/// How many bytes that separate words a text begins with.
fn gap_of(text: &[u8]) -> usize
    ensures { result ≡ position_or_len (λ b. not (is_separator b)) text.now }
{
    first_word_byte(text).unwrap_or(text.len())
}

fn first_word_byte(text: &[u8]) -> Option<usize>
    ensures { result ≡ position (λ b. not (is_separator b)) text.now }
{
    text.iter().position(|byte| !parts_words(*byte))
}

/// How many bytes of a word a text begins with.
fn run_of(text: &[u8]) -> usize
    ensures { result ≡ position_or_len is_separator text.now }
{
    first_separator(text).unwrap_or(text.len())
}

fn first_separator(text: &[u8]) -> Option<usize>
    ensures { result ≡ position is_separator text.now }
{
    text.iter().position(|byte| parts_words(*byte))
}

fn parts_words(byte: u8) -> bool
    ensures { result ≡ is_separator byte }
{
    byte == b' ' || byte == b'\t' || byte == b'\n' || byte == b'\r'
}
