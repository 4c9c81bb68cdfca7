//! The words of the server's program.

ghost use Rattle.std.specs.Prelude.{◌≡◌, ◌≤◌, map, string_bytes, IfOk};
ghost use Rattle.dcop_base.specs.NumberWord.{number_of};
ghost use Rattle.reply_cache.specs.Limits.{entry_limit};
ghost use Rattle.solve_serve.specs.Peers.{peer_limit, server_limit};
ghost use Rattle.serve_top.specs.Words.{least_port, most_port, refused, number_within, all_four, wrong_count, words_read, AreWordsInRange};

use dcop_base::number_of_word;

/// What the server is asked for.
#[derive(Clone, Copy, Debug, PartialEq, Eq)]
pub struct ServeWords {
    /// The port at which it listens: 1,024 to 65,535.
    pub port: u64,
    /// How many connections it accepts: 1 to 64.
    pub clients: u64,
    /// How many replies its cache keeps: 1 to 1,024.
    pub entries: u64,
    /// How many sessions it serves concurrently: 1 to 16.
    pub workers: u64,
}

/// Why words are refused.
#[derive(Clone, Copy, Debug, PartialEq, Eq)]
pub struct Refused {
    /// The place of the word that is refused, counted from 1.
    pub at: u64,
    /// The kind: 3 for a fifth word, 4 if one is missing, 6 if a word is no number, 7 if the number
    /// is outside its range.
    pub kind: u8,
}

/// Reads what words ask for, from left to right.
///
/// # Errors
///
/// The first refusal. The number of words is tested before each word is.
pub fn read_words(words: &[String]) -> Result<ServeWords, Refused>
    ensures asked { result ≡ words_read (map string_bytes words.now) }
    ensures range { IfOk result AreWordsInRange }
{
    match words {
        [port, clients, entries, workers] => read_four(
            port.as_str(),
            clients.as_str(),
            entries.as_str(),
            workers.as_str(),
        ),
        _ => Err(wrong_count(words.len())),
    }
}

/// What four words ask for, or their first refusal.
fn read_four(port: &str, clients: &str, entries: &str, workers: &str) -> Result<ServeWords, Refused>
    ensures range { IfOk result AreWordsInRange }
    ensures asked { result ≡ all_four (number_within 1 least_port most_port (number_of port.now)) (number_within 2 1 peer_limit (number_of clients.now)) (number_within 3 1 entry_limit (number_of entries.now)) (number_within 4 1 server_limit (number_of workers.now)) }
{
    let port = number_within(1, port, 1_024, 65_535)?;
    let clients = number_within(2, clients, 1, 64)?;
    let entries = number_within(3, entries, 1, 1_024)?;
    let workers = number_within(4, workers, 1, 16)?;
    Ok(ServeWords {
        port,
        clients,
        entries,
        workers,
    })
}

/// The number that the word at this place gives, if it is in this range; otherwise its refusal.
fn number_within(at: u64, word: &str, least: u64, most: u64) -> Result<u64, Refused>
    ensures asked { result ≡ number_within at least most (number_of word.now) }
    ensures range { IfOk result (λ n. (least ≤ n) × (n ≤ most)) }
{
    match number_of_word(word.as_bytes()) {
        None => Err(Refused { at, kind: 6 }),
        Some(number) if number < least || most < number => Err(Refused { at, kind: 7 }),
        Some(number) => Ok(number),
    }
}

/// Why this many words are refused.
fn wrong_count(count: usize) -> Refused
    ensures { result ≡ wrong_count count }
{
    if count < 4 {
        Refused {
            at: count as u64 + 1,
            kind: 4,
        }
    } else {
        Refused { at: 5, kind: 3 }
    }
}
