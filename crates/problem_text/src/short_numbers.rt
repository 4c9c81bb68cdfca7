//! Short numbers: numbers of few digits between two spaces. Most cells of a table are short
//! numbers. They are read without a search for the ends of words.

ghost use Rattle.std.specs.Prelude.{◌≡◌, ◌+◌, ◌-◌, ◌<◌, ◌≤◌, ◌++◌, true, false, Some, length, take, IfSome, MatchOption};
ghost use Rattle.std.specs.List.{position_or_len};
ghost use Rattle.std.specs.Option.{option_map};
ghost use Rattle.std.specs.Char.{is_ascii_digit};
ghost use Rattle.dcop_base.specs.NumberWord.{number_of};
ghost use Rattle.dcop_base.specs.Table.{greatest as greatest_of};
ghost use Rattle.problem_text.specs.Lines.{is_blank, words};
ghost use Rattle.problem_text.specs.Tables.{onto, numbers_of};

/// The most digits of a short number.
const SHORT: usize = 8;

/// The result of reading the numbers that a text begins with.
#[derive(Clone, Copy, Debug)]
pub struct ShortRun<'a> {
    /// How many numbers were read.
    pub count: usize,
    /// The greatest of them, or 0 if there are none.
    pub greatest: u64,
    /// The text after them.
    pub after: &'a [u8],
}

/// Writes the numbers of at most 8 digits with which a text begins into `cells`, until `cells` is
/// full or something else comes. Each must stand between two spaces, and it stops a few bytes
/// before the end of the text.
pub fn short_run<'a>(cells: &mut [u64], text: &'a [u8]) -> ShortRun<'a>
    ensures size { length cells.new ≡ length cells.old }
    ensures count { result.count ≤ length cells.old }
    ensures numbers { numbers_of (words text.now) ≡ option_map
        (λ later. take result.count cells.new ++ later) (numbers_of (words result.after.now)) }
    ensures greatest { result.greatest ≡ greatest_of (take result.count cells.new) }
    ensures words { result.count + length (words result.after.now) ≡ length (words text.now) }
{
    let mut count: usize = 0;
    let mut greatest: u64 = 0;
    let mut rest = text;
    while count < cells.len() {
        let Some((number, after)) = short_behind_space(rest) else {
            break;
        };
        cells[count] = number;
        count += 1;
        greatest = greatest.max(number);
        rest = after;
    }
    ShortRun {
        count,
        greatest,
        after: rest,
    }
}

/// The short number after the one space that a text begins with, and the text after that number;
/// `None` if the text begins otherwise or is near its end.
fn short_behind_space(text: &[u8]) -> Option<(u64, &[u8])>
    ensures { IfSome result (λ r.
        (numbers_of (words text.now) ≡ onto (Some r.0) (numbers_of (words r.1.now)))
        × (length (words r.1.now) + 1 ≡ length (words text.now))) }
{
    if text.len() <= SHORT + 1 || text[0] != b' ' {
        return None;
    }
    let (_, from_word) = text.split_at(1);
    let (number, length) = short_at(from_word)?;
    Some((number, from_word.split_at(length).1))
}

/// The short number at the start of a text that a space follows, and how many digits it has; `None`
/// if there is none.
fn short_at(text: &[u8]) -> Option<(u64, usize)>
    requires { SHORT < length text.now }
    ensures some { IfSome result (λ r. 1 ≤ r.1) }
    ensures within { IfSome result (λ r. r.1 ≤ length text.now) }
    ensures run { IfSome result (λ r. r.1 ≡ position_or_len is_blank text.now) }
    ensures number { IfSome result (λ r. number_of (take r.1 text.now) ≡ Some r.0) }
{
    let mut value: u64 = 0;
    for count in 0..SHORT + 1 {
        let byte = text[count];
        let Some(digit) = digit_of(byte) else {
            if count == 0 || byte != b' ' {
                return None;
            }
            return Some((value, count));
        };
        value = value * 10 + digit;
    }
    None
}

/// The value of a digit; `None` exactly when the byte is not a digit.
fn digit_of(byte: u8) -> Option<u64>
    ensures { MatchOption result (is_ascii_digit byte ≡ false)
        (λ d. (is_ascii_digit byte ≡ true) × (d ≡ byte - 48) × (d ≤ 9)) }
{
    let digit = u64::from(byte).wrapping_sub(u64::from(b'0'));
    if digit > 9 { None } else { Some(digit) }
}
