// Making names, and their text.
ghost use Rattle.std.specs.Prelude.{◌≡◌, ◌↔◌, IsTrue, IfOk, MatchOption};
ghost use Rattle.std.specs.List.{list_all};
ghost use Rattle.sl_parts.specs.Text.{IsName, is_name_byte};

use crate::text::Name;
use sl_machine::Memory;
use std::alloc::Global;
use std::fmt;

fn is_name_byte(byte: u8) -> bool
    ensures { result ≡ is_name_byte byte }
{
    matches!(byte, b'a'..=b'z' | b'0'..=b'9' | b'_')
}

fn has_name_bytes(text: &[u8]) -> bool
    ensures { result ≡ list_all is_name_byte text.now }
{
    for byte in text {
        if !is_name_byte(*byte) {
            return false;
        }
    }
    true
}

/// Whether a text is a name.
fn is_name(text: &[u8]) -> bool
    ensures { IsTrue result ↔ IsName text.now }
{
    !text.is_empty() && text.len() <= 16 && has_name_bytes(text)
}

#[tactic(auto, using(crate::proofs::NameLemmas::name_is_text))]
fn text_of(bytes: &[u8]) -> &str
    requires { IsName bytes.now }
    ensures { result.now ≡ bytes.now }
{
    match std::str::from_utf8(bytes) {
        Ok(text) => text,
        Err(_) => unreachable!(),
    }
}

impl Name {
    /// The name that a text is, where it is one.
    pub fn new(alloc: Global, text: &str) -> Result<Option<Name>, Memory>
        ensures { IfOk result
            (λ made. MatchOption made (IsName text.now → ⊥) (λ name. name ≡ text.now)) }
    {
        if !is_name(text.as_bytes()) {
            return Ok(None);
        }
        let items = Vec::from_slice(alloc, text.as_bytes())?;
        Ok(Some(Name { items }))
    }

    /// The name as a text.
    pub fn as_str(&self) -> &str
        ensures text { result.now ≡ self.now }
        ensures name { IsName self.now }
    {
        text_of(self.items.as_slice())
    }
}

impl fmt::Display for Name {
    ghost use Rattle.std.specs.Prelude.{Some};

    ghost output = { λ n. Some n };

    fn fmt<W: fmt::Write>(&self, f: &mut fmt::Formatter<W>) -> fmt::Result {
        let text = self.as_str();
        write!(f, "{text}")
    }
}
