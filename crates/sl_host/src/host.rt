// The machine of a host.
ghost use Rattle.std.specs.Prelude.{◌≡◌, ◌+◌, ◌<◌, Option, None, IfOk, length, nat_lt};
ghost use Rattle.std.specs.Prelude.{option_map, slice_get, min, OnOk, OnErr};
ghost use Rattle.std.specs.List.{All};
ghost use Rattle.sl_flow.specs.Flow.{HasAddresses};
ghost use Rattle.sl_wire.specs.Carried.{carrying};
ghost use Rattle.sl_host.specs.Host.{HostState, messages, messages_of, host_rules, host_counts};

use crate::frames::{message_at, raws_of};
use sl_flow::Share;
use sl_machine::{Machine, Memory, Outputs};
use sl_net::{Bytes, Input};
use sl_wire::Msg;
use std::alloc::{AllocError, Global};
use std::marker::Model;

/// The choice by which a host sends its next frame. The choice 0 takes from its link.
const INJECT: u32 = 1;

/// A host: it sends the packets of its flows and then its raw frames, and counts the frames that
/// it takes.
#[derive(Drop)]
pub struct Host {
    /// Its packets, and how far it is in them.
    share: Share,
    raws: Vec<Bytes>,
    sent: u64,
    delivered: u64,
    /// The next frame's message, where it is made.
    next: Option<Msg>,
    prepared: Option<u32>,
}

impl Model for Host {
    ghost use Rattle.sl_host.specs.Kept as kept;

    ghost Value = { kept.Host };

    ghost view = { λ h.
        record {
          state = kept.state_of h.share.packets h.raws.items h.sent h.delivered;
          ready = h.prepared;
        } };

    ghost invariant = { λ h. kept.IsKept h.share h.raws.items h.sent h.next h.prepared };
}

/// Makes the message of the next frame, where one is left to send. It stands by itself, since most
/// turns of a host that has sent all of its frames need none.
#[inline(never)]
fn make_next(
    next: &mut Option<Msg>,
    share: &Share,
    raws: &Vec<Bytes>,
    sent: u64,
) -> Result<(), AllocError>
    requires { share.now.sent ≡ min sent (length share.now.packets) }
    ensures made { OnOk result
        (next.new ≡ option_map carrying
        (slice_get (messages share.now.packets raws.now.items) sent)) }
    ensures same { OnErr result (next.new ≡ next.old) }
{
    *next = message_at(*raws.allocator(), share, raws.as_slice(), sent)?;
    Ok(())
}

impl Host {
    /// The host of an input, at a place among its hosts, before it has sent or taken a frame. The
    /// hosts that flows name are below 65,536, as those of an accepted input are.
    pub fn new(alloc: Global, host: u32, input: &Input) -> Result<Host, Memory>
        requires { All HasAddresses input.now.flows }
        ensures state { IfOk result
            (λ h. h.state
            ≡ record { messages = messages_of input.now host; sent = 0; delivered = 0 }) }
        ensures ready { IfOk result (λ h. h.ready ≡ None) }
    {
        let share = Share::of(alloc, host, input.flows.as_slice())?;
        let raws = raws_of(alloc, input.raws.as_slice(), host)?;
        if share.count().checked_add(raws.len() as u64).is_none() {
            return Err(Memory);
        }
        Ok(Host {
            share,
            raws,
            sent: 0,
            delivered: 0,
            next: None,
            prepared: None,
        })
    }

    /// Whether a frame is left to send.
    fn has_more(&self) -> bool
        ensures { result ≡ nat_lt self.now.state.sent (length self.now.state.messages) }
    {
        self.sent < self.share.count() + self.raws.len() as u64
    }

    /// How many frames it has sent.
    pub fn sent(&self) -> u64
        ensures { result ≡ self.now.state.sent }
    {
        self.sent
    }

    /// How many frames it has taken.
    pub fn delivered(&self) -> u64
        ensures { result ≡ self.now.state.delivered }
    {
        self.delivered
    }
}

impl Machine for Host {
    type Msg = Msg;

    ghost State = { HostState };

    ghost state = { λ h. h.state };

    ghost rules = { host_rules };

    ghost counts = { λ _. host_counts };

    ghost ready_for = { λ h. h.ready };

    fn ready(&mut self, choice: u32) -> Result<(), Memory> {
        self.prepared = None;
        if choice == INJECT && self.next.is_none() && self.has_more() {
            make_next(&mut self.next, &self.share, &self.raws, self.sent)?;
        }
        self.prepared = Some(choice);
        Ok(())
    }

    fn take(&mut self, _link: u32, m: Msg, _out: &mut Outputs<Msg>) {
        self.prepared = None;
        if let Msg::Frame(_) | Msg::Wire(_) = m {
            self.delivered = self.delivered.saturating_add(1);
        }
    }

    fn act(&mut self, _action: u32, out: &mut Outputs<Msg>) -> bool {
        self.prepared = None;
        match self.next.take() {
            Some(message) => {
                self.sent += 1;
                self.share.step();
                out.put(0, message);
                true
            }
            None => false,
        }
    }
}
