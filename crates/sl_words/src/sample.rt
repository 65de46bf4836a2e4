// The words after `sample`: a number, and around it the words of an option.
ghost use Rattle.std.specs.Prelude.{◌≡◌, ◌≤◌, IfOk, IfSome, map, string_bytes, option_map};
ghost use Rattle.sl_words.specs.Words.{sample_number, take_number, sample_words};

use crate::flags::{Flag, flag_words};
use sl_machine::Memory;
use std::alloc::Global;

/// A number from 1 to 64, with no sign and no leading zero.
fn sample_number(word: &str) -> Option<u8>
    ensures number { result ≡ sample_number word.now }
    ensures some { IfSome result (λ n. 1 ≤ n) }
    ensures few { IfSome result (λ n. n ≤ 64) }
{
    match word.as_bytes() {
        [ones @ b'1'..=b'9'] => Some(*ones - b'0'),
        [tens @ b'1'..=b'5', ones @ b'0'..=b'9'] => Some((*tens - b'0') * 10 + (*ones - b'0')),
        [b'6', ones @ b'0'..=b'4'] => Some(60 + (*ones - b'0')),
        _ => None,
    }
}

/// The first word that is such a number, and the words without it.
#[tactic(auto, using(crate::proofs::NumberLemmas::number_steps))]
fn take_number<'a>(alloc: Global, words: &'a [String]) -> Result<Option<(u8, Vec<&'a str>)>, Memory>
    ensures taken { IfOk result
        (λ t. option_map (λ p. (p.0, map (λ w. w.now) p.1.items)) t
        ≡ take_number (map string_bytes words.now)) }
    ensures some { IfOk result (λ t. IfSome t (λ p. 1 ≤ p.0)) }
    ensures few { IfOk result (λ t. IfSome t (λ p. p.0 ≤ 64)) }
{
    let mut number = None;
    let mut others = Vec::new(alloc);
    for word in words {
        match sample_number(word.as_str()) {
            Some(found) if number.is_none() => number = Some(found),
            _ => {
                others.push(word.as_str())?;
            }
        }
    }
    match number {
        Some(number) => Ok(Some((number, others))),
        None => Ok(None),
    }
}

/// The number and whether the input is asked for, or none where the words are something else.
pub fn sample_words(alloc: Global, words: &[String]) -> Result<Option<(u8, bool)>, Memory>
    ensures asked { IfOk result (λ asked. asked ≡ sample_words (map string_bytes words.now)) }
    ensures some { IfOk result (λ asked. IfSome asked (λ p. 1 ≤ p.0)) }
    ensures few { IfOk result (λ asked. IfSome asked (λ p. p.0 ≤ 64)) }
{
    match take_number(alloc, words)? {
        Some((number, others)) => match flag_words(alloc, Flag::Input, others.as_slice())? {
            Some(asked) => Ok(Some((number, asked))),
            None => Ok(None),
        },
        None => Ok(None),
    }
}
