// The packets of the frames that hosts send.
ghost use Rattle.std.specs.Prelude.{◌≡◌, ◌<◌, ◌∷◌, ◌++◌, [], ◌==◌, IfOk, OnOk, cond, map, length};
ghost use Rattle.sl_parts.specs.Parts.{below};
ghost use Rattle.sl_flow.specs.Flow.{packets_of, HaveAddresses};
ghost use Rattle.sl_model.specs.Frame.{packet_of};
ghost use Rattle.sl_model.specs.Setup.{setup_of, frames_of};
ghost use Rattle.sl_poll.specs.Ways.{next_of, after_next, frames_for, packets_in, raws_in};
ghost use Rattle.sl_poll.specs.Ways.{first_feed};

use sl_flow::packets_of;
use sl_input::packet_of;
use sl_machine::Memory;
use sl_net::{ActorId, Input, Packet, RawPart};
use std::alloc::Global;
use std::marker::Model;

/// The packets of the frames that a host sends, or none where a frame has none, and how many
/// frames it sent.
#[derive(Drop)]
pub struct Feed {
    frames: Vec<Option<Packet>>,
    sent: usize,
}

impl Model for Feed {
    ghost use Rattle.sl_poll.specs.Ways.{Feed};

    ghost Value = { Feed };

    ghost view = { λ f. record { frames = f.frames.items; sent = f.sent } };
}

impl Feed {
    /// The packet of the next frame, where one is left, which is sent.
    pub fn next(&mut self) -> Option<Option<Packet>>
        ensures next { result ≡ next_of self.old }
        ensures after { self.new ≡ after_next self.old }
    {
        let packet = self.frames.get(self.sent).copied()?;
        self.sent += 1;
        Some(packet)
    }
}

/// Adds the packets of a host's flows.
fn add_packets(frames: &mut Vec<Option<Packet>>, packets: &[Packet]) -> Result<(), Memory>
    ensures { OnOk result (frames.new.items ≡ frames.old.items ++ packets_in packets.now) }
{
    for packet in packets {
        frames.push(Some(*packet))?;
    }
    Ok(())
}

fn add_raw(frames: &mut Vec<Option<Packet>>, raw: &RawPart, host: u32) -> Result<(), Memory>
    ensures { OnOk result
        (frames.new.items ≡ frames.old.items ++ cond (raw.now.from == host)
        (packet_of raw.now.bytes ∷ []) []) }
{
    if raw.from == host {
        frames.push(packet_of(&raw.bytes))?;
    }
    Ok(())
}

/// Adds the packets of a host's raw frames.
#[tactic(auto, using(crate::proofs::Feeds::raws_more))]
fn add_raws(frames: &mut Vec<Option<Packet>>, raws: &[RawPart], host: u32) -> Result<(), Memory>
    ensures { OnOk result (frames.new.items ≡ frames.old.items ++ raws_in raws.now host) }
{
    for raw in raws {
        add_raw(frames, raw, host)?;
    }
    Ok(())
}

/// The packets of the frames that a host sends, in order.
fn frames_of(alloc: Global, input: &Input, host: u32) -> Result<Vec<Option<Packet>>, Memory>
    requires { HaveAddresses input.now.flows }
    ensures { IfOk result
        (λ frames. frames.items ≡ packets_in (packets_of input.now.flows host)
        ++ raws_in input.now.raws host) }
{
    let packets = packets_of(alloc, host, input.flows.as_slice())?;
    let mut frames = Vec::new(alloc);
    add_packets(&mut frames, packets.as_slice())?;
    add_raws(&mut frames, input.raws.as_slice(), host)?;
    Ok(frames)
}

#[tactic(auto, using(crate::proofs::Feeds::frames_are))]
fn frames_for(alloc: Global, input: &Input, actor: ActorId) -> Result<Vec<Option<Packet>>, Memory>
    requires { HaveAddresses input.now.flows }
    ensures { IfOk result
        (λ frames. frames.items ≡ map packet_of (frames_for (setup_of input.now) actor)) }
{
    match actor {
        ActorId::Host(host) => Ok(frames_of(alloc, input, host)?),
        _ => Ok(Vec::new(alloc)),
    }
}

fn first_feed(alloc: Global, input: &Input, actor: u32) -> Result<Feed, Memory>
    requires addresses { HaveAddresses input.now.flows }
    requires actor { actor < length input.now.net.actors }
    ensures { IfOk result (λ feed. feed ≡ first_feed (setup_of input.now) actor) }
{
    let frames = frames_for(alloc, input, input.net.actor(actor))?;
    Ok(Feed { frames, sent: 0 })
}

/// For each actor what it sends that is a host.
pub fn list_feeds(alloc: Global, input: &Input) -> Result<Vec<Feed>, Memory>
    requires { HaveAddresses input.now.flows }
    ensures { IfOk result
        (λ feeds. feeds.items ≡ map (first_feed (setup_of input.now))
        (below (length input.now.net.actors))) }
{
    let mut feeds = Vec::new(alloc);
    for actor in 0..input.net.actors().len() as u32 {
        feeds.push(first_feed(alloc, input, actor)?)?;
    }
    Ok(feeds)
}
