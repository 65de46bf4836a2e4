// Plain decimal numbers.
ghost use Rattle.std.specs.Prelude.{◌≡◌, ℕ, ◌<◌, ◌^◌};
ghost use Rattle.sl_parts.specs.Number.{is_plain, all_digits, plain_number, IsPlainNumber};

fn all_digits(text: &[u8]) -> bool
    ensures { result ≡ all_digits text.now }
{
    for byte in text {
        if !byte.is_ascii_digit() {
            return false;
        }
    }
    true
}

fn is_plain(text: &[u8]) -> bool
    ensures { result ≡ is_plain text.now }
{
    match text {
        [] => false,
        [b'0', _, ..] => false,
        _ => all_digits(text),
    }
}

/// The number that a text writes in decimal with no sign and no leading zero, where it is at most
/// `most`.
#[tactic(auto, using(crate::proofs::NumberLemmas::plain_refused))]
pub fn plain_number(most: u64, text: &str) -> Option<u64>
    ensures { result ≡ plain_number most text.now }
{
    if !is_plain(text.as_bytes()) {
        return None;
    }
    match text.parse::<u64>() {
        Ok(n) if n <= most => Some(n),
        _ => None,
    }
}

/// A law: each number up to `most` is read from its decimal text, and from no other text.
pub fn plain_numbers()
    ensures { (most : ℕ) → most < 2 ^ 64 → IsPlainNumber most }
{}
