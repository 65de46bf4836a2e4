// Trusted types: PortText.
// Forms of texts: names, ports, bytes in hexadecimal, numbers of passes.
ghost use Rattle.std.specs.Prelude.{◌≡◌, ℕ, ◌+◌, ◌<◌, ◌≤◌, IfOk, IfSome, List, length, drop};
ghost use Rattle.std.specs.Prelude.{Option, option_map};
ghost use Rattle.toml.specs.View.{table_view};
ghost use Rattle.sl_form.specs.Refusals.{Answers};
ghost use Rattle.sl_form.specs.Fields.{required_form};
ghost use Rattle.sl_form.specs.Forms.{digit_of, byte_of, pairs_of, pass_of};

use crate::fields::required_text;
use crate::path::{Key, Path, TableName};
use crate::refusal::{ReadError, Refusal};
use sl_machine::Memory;
use sl_net::{Bytes, Name, plain_number};
use std::alloc::Global;
use toml::Table;

/// What a text at a key may be read as.
pub trait Form: Sized + Drop {
    ghost form_of: { List ℕ → Option Self };

    /// What the text says, or none where it has another form.
    fn read(alloc: Global, text: &str) -> Result<Option<Self>, Memory>
        ensures { IfOk result (λ made. made ≡ form_of text.now) };
}

/// What the text at a key says, which has to be there.
pub fn required<F: Form>(
    alloc: Global,
    table: &Table,
    at: TableName,
    key: Key,
) -> Result<F, ReadError>
    ensures { Answers result (required_form F.form_of at key (table_view table.now)) }
{
    let text = required_text(table, at, key)?;
    match F::read(alloc, text)? {
        Some(value) => Ok(value),
        None => Err(ReadError::Refused(Refusal::Form(Path::at(at, key)))),
    }
}

/// A port, by the name of its device.
#[derive(Drop)]
pub struct PortText {
    pub device: Name,
    pub port: u32,
}

#[tactic(auto, using(crate::proofs::FormLemmas::no_name, crate::proofs::FormLemmas::a_name))]
impl Form for Name {
    ghost use Rattle.sl_form.specs.Forms.{name_of};

    ghost form_of = { name_of };

    fn read(alloc: Global, text: &str) -> Result<Option<Name>, Memory> {
        match Name::new(alloc, text)? {
            Some(name) => Ok(Some(name)),
            None => Ok(None),
        }
    }
}

#[tactic(auto, using(std::proofs::lemmas::Str::Pattern::split_once_first))]
impl Form for PortText {
    ghost use Rattle.sl_form.specs.Forms.{port_of};

    ghost form_of = { port_of };

    fn read(alloc: Global, text: &str) -> Result<Option<PortText>, Memory> {
        let (device, port) = match text.split_once('.') {
            Some(parts) => parts,
            None => return Ok(None),
        };
        let device = match Name::read(alloc, device)? {
            Some(device) => device,
            None => return Ok(None),
        };
        match plain_number(65535, port) {
            Some(port) => Ok(Some(PortText {
                device,
                port: port as u32,
            })),
            None => Ok(None),
        }
    }
}

/// The value of a digit of `0` to `9` and `a` to `f`.
fn digit_of(byte: u8) -> Option<u8>
    ensures value { result ≡ digit_of byte }
    ensures low { IfSome result (λ d. d < 16) }
{
    match byte {
        b'0'..=b'9' => Some(byte - b'0'),
        b'a'..=b'f' => Some(byte - b'a' + 10),
        _ => None,
    }
}

fn byte_of(high: u8, low: u8) -> Option<u8>
    ensures { result ≡ byte_of high low }
{
    match (digit_of(high), digit_of(low)) {
        (Some(high), Some(low)) => Some(high * 16 + low),
        _ => None,
    }
}

/// What follows two bytes.
fn past_pair(bytes: &[u8]) -> &[u8]
    requires { 2 ≤ length bytes.now }
    ensures { result.now ≡ drop 2 bytes.now }
{
    &bytes[2..]
}

#[tactic(auto, using(crate::proofs::FormLemmas::pair_steps))]
fn pairs_of(alloc: Global, text: &[u8]) -> Result<Option<Vec<u8>>, Memory>
    ensures value { IfOk result (λ made. option_map (λ v. v.items) made ≡ pairs_of text.now) }
    ensures len { IfOk result
        (λ made. IfSome made (λ v. length v.items + length v.items ≡ length text.now)) }
{
    let mut bytes = Vec::new(alloc);
    let mut left = text;
    while left.len() >= 2 {
        match byte_of(left[0], left[1]) {
            Some(byte) => bytes.push(byte)?,
            None => return Ok(None),
        }
        left = past_pair(left);
    }
    if left.is_empty() {
        Ok(Some(bytes))
    } else {
        Ok(None)
    }
}

impl Form for Bytes {
    ghost use Rattle.sl_form.specs.Forms.{hex_of};

    ghost form_of = { hex_of };

    fn read(alloc: Global, text: &str) -> Result<Option<Bytes>, Memory> {
        if text.len() > 128 {
            return Ok(None);
        }
        match pairs_of(alloc, text.as_bytes())? {
            Some(items) => Ok(Some(Bytes { items })),
            None => Ok(None),
        }
    }
}

/// The number of passes that a text `pass n` asks for.
#[tactic(auto, using(std::proofs::lemmas::Str::Pattern::split_once_first))]
pub fn pass_of(text: &str) -> Option<u64>
    ensures value { result ≡ pass_of text.now }
    ensures few { IfSome result (λ n. n ≤ 10000) }
{
    let (word, number) = match text.split_once(' ') {
        Some(parts) => parts,
        None => return None,
    };
    if word != "pass" {
        return None;
    }
    match plain_number(10_000, number) {
        Some(n) if n > 0 => Some(n),
        _ => None,
    }
}
