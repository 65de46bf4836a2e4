// The words after `poll`: two numbers, and among them one word `--`.
ghost use Rattle.std.specs.Prelude.{◌≡◌, ◌∷◌, [], map, string_bytes};
ghost use Rattle.std.specs.Str.{bytes_eq};
ghost use Rattle.sl_words.specs.Words.{dashes, pace_number, two_numbers, poll_words};

use sl_parts::plain_number;

/// A number from 0 to 1,000,000, with no sign and no leading zero.
fn pace_number(word: &str) -> Option<u64>
    ensures { result ≡ pace_number word.now }
{
    plain_number(1_000_000, word)
}

fn is_dashes(word: &str) -> bool
    ensures { result ≡ bytes_eq word.now dashes }
{
    word == "--"
}

fn two_numbers(start: &str, gap: &str) -> Option<(u64, u64)>
    ensures { result ≡ two_numbers (start.now ∷ gap.now ∷ []) }
{
    let start = pace_number(start)?;
    let gap = pace_number(gap)?;
    Some((start, gap))
}

/// Two words, none of which is to be `--`.
fn without_dashes(a: &str, b: &str) -> Option<(u64, u64)>
    ensures { result ≡ poll_words (a.now ∷ b.now ∷ []) }
{
    if is_dashes(a) {
        None
    } else if is_dashes(b) {
        None
    } else {
        two_numbers(a, b)
    }
}

/// Three words, one of which is to be `--`.
fn with_dashes(a: &str, b: &str, c: &str) -> Option<(u64, u64)>
    ensures { result ≡ poll_words (a.now ∷ b.now ∷ c.now ∷ []) }
{
    if is_dashes(a) {
        two_numbers(b, c)
    } else if is_dashes(b) {
        two_numbers(a, c)
    } else if is_dashes(c) {
        two_numbers(a, b)
    } else {
        None
    }
}

/// The two numbers, or none where the words are something else.
pub fn poll_words(words: &[String]) -> Option<(u64, u64)>
    ensures { result ≡ poll_words (map string_bytes words.now) }
{
    match words {
        [a, b] => without_dashes(a.as_str(), b.as_str()),
        [a, b, c] => with_dashes(a.as_str(), b.as_str(), c.as_str()),
        _ => None,
    }
}
