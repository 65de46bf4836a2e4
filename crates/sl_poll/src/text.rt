// The text of a reading.
ghost use Rattle.std.specs.Prelude.{◌≡◌, ◌<◌, ◌++◌, Some, IfOk, OnOk, IfSome, length, flat_map};
ghost use Rattle.std.specs.Prelude.{codes, string_bytes};
ghost use Rattle.sl_poll.specs.PollText.{link_text, counts_text, read_line, times_text};
ghost use Rattle.sl_poll.specs.PollText.{broken_line, poll_text};

use crate::reading::{Polled, Read1};
use crate::trail::Pair;
use sl_machine::Memory;
use sl_net::{Line, Net, choice_text, nets_have_ways};
use sl_report::{push_unit, unit_at};
use std::alloc::{AllocError, Global};

/// Writes what was read of a unit.
#[tactic(auto, unfolding(crate::specs::PollText::counts_text))]
fn push_read(out: &mut String, net: &Net, read: &Read1) -> Result<(), AllocError>
    ensures { OnOk result
        (string_bytes out.new ≡ string_bytes out.old ++ read_line net.now read.now) }
{
    let at = read.at;
    let packets = read.packets;
    let bytes = read.bytes;
    write!(out, "read ")?;
    push_unit(out, net, unit_at(net, read.unit))?;
    write!(out, " {at} {packets} {bytes}\n")
}

#[tactic(auto, using(crate::proofs::Texts::reads_more))]
fn push_reads(out: &mut String, net: &Net, reads: &[Read1]) -> Result<(), AllocError>
    ensures { OnOk result
        (string_bytes out.new ≡ string_bytes out.old ++ flat_map (read_line net.now) reads.now) }
{
    for read in reads {
        push_read(out, net, read)?;
    }
    Ok(())
}

/// The text of the head and of what was read.
fn reads_bytes(alloc: Global, net: &Net, reads: &[Read1]) -> Result<Vec<u8>, AllocError>
    ensures { IfOk result
        (λ bytes. bytes.items ≡ codes "poll 1\n" ++ flat_map (read_line net.now) reads.now) }
{
    let mut out = String::new(alloc);
    write!(out, "poll 1\n")?;
    push_reads(&mut out, net, reads)?;
    Ok(out.into_bytes())
}

#[tactic(auto, unfolding(crate::specs::PollText::times_text))]
fn times_bytes(alloc: Global, pair: Pair) -> Result<Vec<u8>, AllocError>
    ensures { IfOk result (λ bytes. bytes.items ≡ times_text pair) }
{
    let put = pair.put;
    let take = pair.take;
    Ok(format!(in alloc; " sent {put} received {take}\n")?.into_bytes())
}

/// The spelling of a link.
fn link_text(alloc: Global, net: &Net, link: u32) -> Result<Line, Memory>
    requires { link < length net.now.links }
    ensures { IfOk result (λ line. line ≡ link_text net.now link) }
{
    nets_have_ways();
    let _part = net.link(link);
    let wire = net.wire(link);
    choice_text(alloc, net, wire.to, wire.choice)
}

fn push_pair(alloc: Global, out: &mut Vec<u8>, net: &Net, pair: Pair) -> Result<(), Memory>
    requires { pair.link < length net.now.links }
    ensures { OnOk result (out.new.items ≡ out.old.items ++ broken_line net.now (Some pair)) }
{
    let link = link_text(alloc, net, pair.link)?;
    let times = times_bytes(alloc, pair)?;
    out.extend_from_slice(b"broken ")?;
    out.extend_from_slice(link.items.as_slice())?;
    Ok(out.extend_from_slice(times.as_slice())?)
}

fn push_broken(
    alloc: Global,
    out: &mut Vec<u8>,
    net: &Net,
    broken: Option<Pair>,
) -> Result<(), Memory>
    requires { IfSome broken (λ p. p.link < length net.now.links) }
    ensures { OnOk result (out.new.items ≡ out.old.items ++ broken_line net.now broken) }
{
    match broken {
        Some(pair) => push_pair(alloc, out, net, pair),
        None => Ok(out.extend_from_slice(b"whole\n")?),
    }
}

/// The text of a reading: a line for each unit, then the first packet that breaks it, or that it is
/// whole.
pub fn polled_bytes(alloc: Global, net: &Net, polled: &Polled) -> Result<Vec<u8>, Memory>
    requires { IfSome polled.now.broken (λ p. p.link < length net.now.links) }
    ensures { IfOk result
        (λ bytes. bytes.items ≡ poll_text net.now polled.now.reads polled.now.broken) }
{
    let mut out = reads_bytes(alloc, net, polled.reads.items.as_slice())?;
    push_broken(alloc, &mut out, net, polled.broken)?;
    out.extend_from_slice(b"end\n")?;
    Ok(out)
}
