// Whether the pieces of a spelling stand in a text, one after another.
ghost use Rattle.std.specs.Prelude.{◌≡◌, ◌<◌, ◌≤◌, ◌+◌, ◌++◌, codes, decimal, length, IfSome};
ghost use Rattle.std.specs.Prelude.{◌&&◌, ◌==◌, nat_lt, slice_index, Option, Some};
ghost use Rattle.sl_net.specs.Spelling.{skip, link_word, port_of, side_text, actor_text};
ghost use Rattle.sl_net.specs.Spelling.{sender_text, link_text, action_text, device_name};
ghost use Rattle.sl_parts.specs.Valid.{IsValid};
ghost use Rattle.sl_layout.specs.Roster.{IsActor};

use sl_layout::{ActorId, Side, Sort, UnitId};
use sl_parts::Parts;

fn stands(text: &[u8], at: usize, byte: u8) -> bool
    ensures { result ≡ (nat_lt at (length text.now) && (slice_index text.now at == byte)) }
{
    at < text.len() && text[at] == byte
}

/// Where the text goes on past this piece, if the piece stands at this place.
pub fn skip(text: &[u8], piece: &[u8], at: usize) -> Option<usize>
    requires { at ≤ length text.now }
    ensures next { result ≡ skip text.now piece.now at }
    ensures within { IfSome result (λ next. next ≤ length text.now) }
{
    let mut next = at;
    for byte in piece {
        if !stands(text, next, *byte) {
            return None;
        }
        next += 1;
    }
    Some(next)
}

#[tactic(auto, using(std::proofs::lemmas::Fmt::decimal_digit))]
fn skip_digit(text: &[u8], digit: u32, at: usize) -> Option<usize>
    requires digit { digit < 8 }
    requires at { at ≤ length text.now }
    ensures next { result ≡ skip text.now (decimal digit) at }
    ensures within { IfSome result (λ next. next ≤ length text.now) }
{
    skip(text, &[b'0' + digit as u8], at)
}

fn skip_device(text: &[u8], parts: &Parts, device: u32, at: usize) -> Option<usize>
    requires device { device < length parts.now.devices }
    requires at { at ≤ length text.now }
    ensures next { result ≡ skip text.now (device_name parts.now device) at }
    ensures within { IfSome result (λ next. next ≤ length text.now) }
{
    let name = &parts.devices[device as usize].name;
    skip(text, name.as_str().as_bytes(), at)
}

/// How a side is spelled.
pub fn side_word(side: Side) -> &'static [u8]
    ensures { result.now ≡ side_text side }
{
    match side {
        Side::Ingress => b"in",
        Side::Egress => b"out",
    }
}

fn skip_side(text: &[u8], side: Side, at: usize) -> Option<usize>
    requires { at ≤ length text.now }
    ensures next { result ≡ skip text.now (side_text side) at }
    ensures within { IfSome result (λ next. next ≤ length text.now) }
{
    skip(text, side_word(side), at)
}

#[tactic(auto, using(crate::proofs::Skips::skip_append))]
fn skip_unit(text: &[u8], parts: &Parts, unit: UnitId, at: usize) -> Option<usize>
    requires valid { IsValid parts.now }
    requires unit { IsActor parts.now (ActorId.Unit unit) }
    requires at { at ≤ length text.now }
    ensures next { result ≡ skip text.now (actor_text parts.now (ActorId.Unit unit)) at }
    ensures within { IfSome result (λ next. next ≤ length text.now) }
{
    let at = skip_side(text, unit.side, at)?;
    let at = skip(text, b" ", at)?;
    let at = skip_device(text, parts, unit.device, at)?;
    let at = skip(text, b".", at)?;
    skip_digit(text, unit.port, at)
}

/// Where the text goes on past an actor.
#[tactic(auto, using(crate::proofs::Skips::skip_append))]
pub fn skip_actor(text: &[u8], parts: &Parts, actor: ActorId, at: usize) -> Option<usize>
    requires valid { IsValid parts.now }
    requires actor { IsActor parts.now actor }
    requires at { at ≤ length text.now }
    ensures next { result ≡ skip text.now (actor_text parts.now actor) at }
    ensures within { IfSome result (λ next. next ≤ length text.now) }
{
    match actor {
        ActorId::Observer => skip(text, b"observer", at),
        ActorId::Control(device) => {
            let at = skip(text, b"control ", at)?;
            skip_device(text, parts, device, at)
        }
        ActorId::Unit(unit) => skip_unit(text, parts, unit, at),
        ActorId::Host(host) => {
            let at = skip(text, b"host ", at)?;
            skip(
                text,
                parts.hosts[host as usize].name.as_str().as_bytes(),
                at,
            )
        }
    }
}

/// Where the text goes on past the port of a unit, as notices and dumps name it.
#[tactic(auto, using(crate::proofs::Skips::skip_append))]
fn skip_port(text: &[u8], unit: UnitId, at: usize) -> Option<usize>
    requires port { unit.port < 8 }
    requires at { at ≤ length text.now }
    ensures next { result ≡ skip text.now (side_text unit.side ++ (codes "." ++ decimal unit.port))
        at }
    ensures within { IfSome result (λ next. next ≤ length text.now) }
{
    let at = skip_side(text, unit.side, at)?;
    let at = skip(text, b".", at)?;
    skip_digit(text, unit.port, at)
}

fn skip_sender(text: &[u8], parts: &Parts, sender: ActorId, at: usize) -> Option<usize>
    requires valid { IsValid parts.now }
    requires sender { IsActor parts.now sender }
    requires at { at ≤ length text.now }
    ensures next { result ≡ skip text.now (sender_text parts.now sender) at }
    ensures within { IfSome result (λ next. next ≤ length text.now) }
{
    match sender {
        ActorId::Control(device) => skip_device(text, parts, device, at),
        ActorId::Unit(unit) => skip_port(text, unit, at),
        _ => Some(at),
    }
}

fn skip_number(text: &[u8], parts: &Parts, sender: ActorId, at: usize) -> Option<usize>
    requires valid { IsValid parts.now }
    requires sender { IsActor parts.now sender }
    requires at { at ≤ length text.now }
    ensures next { result ≡ skip text.now (decimal (port_of sender)) at }
    ensures within { IfSome result (λ next. next ≤ length text.now) }
{
    match sender {
        ActorId::Unit(unit) => skip_digit(text, unit.port, at),
        _ => skip_digit(text, 0, at),
    }
}

/// The word that a link of the sort is spelled with, before its sender.
pub fn link_word(sort: Sort) -> &'static [u8]
    ensures { result.now ≡ link_word sort }
{
    match sort {
        Sort::FromHost => b"host",
        Sort::ToHost => b"net",
        Sort::Cable => b"cable",
        Sort::Crossbar => b"x",
        Sort::Init => b"init",
        Sort::Poll => b"poll",
        Sort::Notice => b"notice:",
        Sort::Dump => b"dump:",
        Sort::Begin => b"begin",
        Sort::Done => b"done:",
    }
}

/// Where the text goes on past a link, named among those of its receiver.
#[tactic(auto, using(crate::proofs::Skips::skip_append))]
pub fn skip_link(
    text: &[u8],
    parts: &Parts,
    sender: ActorId,
    sort: Sort,
    at: usize,
) -> Option<usize>
    requires valid { IsValid parts.now }
    requires sender { IsActor parts.now sender }
    requires at { at ≤ length text.now }
    ensures next { result ≡ skip text.now (link_text parts.now sender sort) at }
    ensures within { IfSome result (λ next. next ≤ length text.now) }
{
    let at = skip(text, link_word(sort), at)?;
    match sort {
        Sort::Crossbar => skip_number(text, parts, sender, at),
        Sort::Notice | Sort::Dump | Sort::Done => skip_sender(text, parts, sender, at),
        _ => Some(at),
    }
}

/// Where the text goes on past an action.
pub fn skip_action(text: &[u8], actor: ActorId, action: u32, at: usize) -> Option<usize>
    requires { at ≤ length text.now }
    ensures next { result ≡ skip text.now (action_text actor action) at }
    ensures within { IfSome result (λ next. next ≤ length text.now) }
{
    match actor {
        ActorId::Observer if action == 0 => skip(text, b"issue", at),
        ActorId::Observer => skip(text, b"resend", at),
        ActorId::Control(_) => skip(text, b"sweep", at),
        ActorId::Unit(_) => Some(at),
        ActorId::Host(_) => skip(text, b"inject", at),
    }
}
