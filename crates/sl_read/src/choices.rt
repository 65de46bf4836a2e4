// Spellings of links and of script entries, looked up in the net.
ghost use Rattle.std.specs.Prelude.{◌≡◌, ◌<◌, ◌≤◌, ◌+◌, IfOk, IfSome, length};
ghost use Rattle.sl_net.specs.Spelling.{HasChoice};
ghost use Rattle.sl_form.specs.Refusals.{Answers};
ghost use Rattle.sl_read.specs.Places.{each};
ghost use Rattle.sl_net.specs.Spelled.{HasOneSpelling};
ghost use Rattle.sl_read.specs.Choices.{choice_named, lossy_link, link_named, drop_part};
ghost use Rattle.sl_read.specs.Choices.{entry_of, fitting, entries_of, passes};

use crate::loss::DropRow;
use sl_form::{Key, Path, ReadError, Refusal, TableName, Text, pass_of};
use sl_machine::Listed;
use sl_net::{Drop1, Net, Script1, find_choice};
use std::alloc::Global;

/// The choice of a spelling.
#[tactic(auto, using(crate::proofs::Settled::one_choice, crate::proofs::Settled::no_choice))]
fn choice_named(net: &Net, text: &str) -> Option<(u32, u32)>
    requires { HasOneSpelling net.now }
    ensures choice { result ≡ choice_named net.now text.now }
    ensures there { IfSome result (λ p. HasChoice net.now p.0 p.1) }
{
    match find_choice(net, text) {
        Some((actor, choice)) => Some((actor, choice)),
        None => None,
    }
}

/// The link that a choice takes from, where messages on it may be lost.
fn lossy_link(net: &Net, actor: u32, choice: u32) -> Option<u32>
    requires { actor < length net.now.actors }
    ensures { result ≡ lossy_link net.now actor choice }
{
    let links = net.links_into(actor);
    if choice as usize >= links.len() {
        return None;
    }
    let link = links[choice as usize];
    if net.kind(link).is_lossy() {
        Some(link)
    } else {
        None
    }
}

/// The lossy link of a spelling.
#[tactic(auto, unfolding(crate::specs::Choices::link_named))]
fn link_named(net: &Net, text: &str) -> Option<u32>
    requires { HasOneSpelling net.now }
    ensures { result ≡ link_named net.now text.now }
{
    match choice_named(net, text) {
        Some((actor, choice)) => lossy_link(net, actor, choice),
        None => None,
    }
}

fn drop_part(net: &Net, index: u64, drop: &DropRow) -> Result<Drop1, Refusal>
    requires { HasOneSpelling net.now }
    ensures { result ≡ drop_part net.now index drop.now }
{
    match link_named(net, drop.link.as_str()) {
        Some(link) => Ok(Drop1 { link, n: drop.n }),
        None => Err(Refusal::Unknown(Path::at(TableName::Drop(index), Key::Link))),
    }
}

/// The listed losses, with links by their numbers.
pub fn place_drops(alloc: Global, net: &Net, drops: &[DropRow]) -> Result<Listed<Drop1>, ReadError>
    requires { HasOneSpelling net.now }
    ensures { Answers result (each (drop_part net.now) 0 drops.now) }
{
    let mut found = Vec::new(alloc);
    for (index, drop) in drops.iter().enumerate() {
        found.push(drop_part(net, index as u64, drop)?)?;
    }
    Ok(Listed { items: found })
}

#[tactic(auto, unfolding(crate::specs::Choices::entry_of))]
fn entry_of(net: &Net, text: &str) -> Option<Script1>
    requires { HasOneSpelling net.now }
    ensures value { result ≡ entry_of net.now text.now }
    ensures few { IfSome result (λ e. passes e ≤ 10000) }
{
    if let Some(n) = pass_of(text) {
        return Some(Script1::Pass(n as u32));
    }
    match choice_named(net, text) {
        Some((actor, choice)) => Some(Script1::Choice { actor, choice }),
        None => None,
    }
}

/// How many passes an entry asks for.
fn passes(entry: Script1) -> u64
    ensures { result ≡ passes entry }
{
    match entry {
        Script1::Pass(n) => n as u64,
        Script1::Choice { .. } => 0,
    }
}

/// The entry of a text, after so many passes.
#[tactic(auto, unfolding(crate::specs::Choices::fitting))]
fn fitting(net: &Net, index: u64, used: u64, text: &str) -> Result<Script1, Refusal>
    requires net { HasOneSpelling net.now }
    requires used { used ≤ 10000 }
    ensures entry { result ≡ fitting net.now index used text.now }
    ensures few { IfOk result (λ e. used + passes e ≤ 10000) }
{
    match entry_of(net, text) {
        Some(entry) if used + passes(entry) <= 10_000 => Ok(entry),
        _ => Err(Refusal::Entry(index)),
    }
}

/// The entries of a script.
pub fn read_entries(alloc: Global, net: &Net, texts: &[Text]) -> Result<Listed<Script1>, ReadError>
    requires { HasOneSpelling net.now }
    ensures { Answers result (entries_of net.now 0 0 texts.now) }
{
    let mut found = Vec::new(alloc);
    let mut used = 0;
    for (index, text) in texts.iter().enumerate() {
        let entry = fitting(net, index as u64, used, text.as_str())?;
        used += passes(entry);
        found.push(entry)?;
    }
    Ok(Listed { items: found })
}
