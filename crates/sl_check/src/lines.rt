// Lines of a text, each of which ends with a newline.
ghost use Rattle.std.specs.Prelude.{◌≡◌, ◌++◌, ◌+◌, List, ℕ, IfSome, IfNone, codes};
ghost use Rattle.sl_check.specs.Lines.{IsLine, PartsAt};

use memchr::memchr;

/// The first line of a text and what follows it, or none where there is no newline.
pub fn split_line(text: &[u8]) -> Option<(&[u8], &[u8])>
    ensures line { IfSome result (λ p. IsLine p.0.now) }
    ensures split { IfSome result (λ p. text.now ≡ p.0.now ++ (codes "\n" ++ p.1.now)) }
    ensures none { IfNone result (IsLine text.now) }
{
    let end = memchr(b'\n', text)?;
    Some((&text[..end], &text[end + 1..]))
}

/// What stands before the first line that is exactly the mark, and what follows it.
pub fn part_at<'a>(text: &'a [u8], mark: &[u8]) -> Option<(&'a [u8], &'a [u8])>
    requires { IsLine mark.now }
    ensures parts { IfSome result (λ p. PartsAt mark.now text.now p.0.now p.1.now) }
    ensures none { IfNone result ((front back : List ℕ) → PartsAt mark.now text.now front back
        → ⊥) }
{
    let mut at = 0;
    let mut rest = text;
    while let Some((line, next)) = split_line(rest) {
        if line == mark {
            return Some((&text[..at], next));
        }
        at += line.len() + 1;
        rest = next;
    }
    None
}
