// The packets of a host, made as they are sent.
ghost use Rattle.std.specs.Prelude.{◌≡◌, ◌+◌, ◌&&◌, ◌<◌, ◌==◌, IfOk, filter, length, min, nat_lt};
ghost use Rattle.std.specs.Prelude.{slice_get};
ghost use Rattle.std.specs.List.{All};
ghost use Rattle.sl_flow.specs.Flow.{packets_of, HaveAddresses};
ghost use Rattle.sl_flow.specs.Share.{all_packets, sent_before, IsAt};

use crate::packets::packet_in;
use sl_machine::Memory;
use sl_net::{Flow, Packet};
use std::alloc::{AllocError, Global};
use std::marker::Model;

/// The packets that a host sends, and how many of them it has sent. It keeps the flows alone, and
/// makes a packet when it is asked for it.
#[derive(Drop)]
pub struct Share {
    /// Those flows of the host that have packets.
    flows: Vec<Flow>,
    /// How many packets there are.
    count: u64,
    /// The place of the flow of the next packet.
    flow: usize,
    /// The number of the next packet in its flow.
    number: u32,
}

impl Model for Share {
    ghost use Rattle.sl_flow.specs.Share.{ShareView, IsShare, all_packets, sent_before};

    ghost Value = { ShareView };

    ghost view = { λ s.
        record {
          packets = all_packets s.flows.items;
          sent = sent_before s.flows.items s.flow s.number;
        } };

    ghost invariant = { λ s. IsShare s.flows.items s.count s.flow s.number };
}

/// The flows of a host that have packets.
fn own_flows(alloc: Global, host: u32, flows: &[Flow]) -> Result<Vec<Flow>, AllocError>
    ensures { IfOk result
        (λ own. own.items ≡ filter (λ f. (f.from == host) && nat_lt 0 f.count) flows.now) }
{
    flows
        .iter()
        .filter(|flow| flow.from == host && flow.count > 0)
        .copied()
        .collect(alloc)
}

/// How many packets flows have. Where 64 bits don't hold the number, no memory would hold the
/// packets.
#[tactic(auto, using(crate::proofs::Sending::one_flow_more))]
fn count_of(flows: &[Flow]) -> Result<u64, Memory>
    ensures { IfOk result (λ count. count ≡ length (all_packets flows.now)) }
{
    let mut count: u64 = 0;
    for flow in flows {
        count = count.checked_add(flow.count as u64).ok_or(Memory)?;
    }
    Ok(count)
}

/// The packet at a place, where there is one.
#[tactic(auto, using(crate::proofs::Sending::packet_stands, crate::proofs::Sending::no_packet_stands))]
fn packet_at(flows: &[Flow], flow: usize, number: u32) -> Option<Packet>
    requires addresses { HaveAddresses flows.now }
    requires at { IsAt flows.now flow number }
    ensures { result ≡ slice_get (all_packets flows.now) (sent_before flows.now flow number) }
{
    if flow < flows.len() {
        Some(packet_in(flows[flow], number))
    } else {
        None
    }
}

/// The place after a place.
#[tactic(auto, using(crate::proofs::Sending::place_steps))]
fn place_after(flows: &[Flow], flow: usize, number: u32) -> (usize, u32)
    requires some { All (λ f. 0 < f.count) flows.now }
    requires at { IsAt flows.now flow number }
    ensures sent { sent_before flows.now result.0 result.1
        ≡ min (sent_before flows.now flow number + 1) (length (all_packets flows.now)) }
    ensures at { IsAt flows.now result.0 result.1 }
{
    if flow >= flows.len() {
        return (flow, number);
    }
    let last = flows[flow].count - 1;
    if number < last {
        (flow, number + 1)
    } else {
        (flow + 1, 0)
    }
}

impl Share {
    /// The packets of a host before any is sent. Hosts are named by their places, which have 16
    /// bits in a packet.
    pub fn of(alloc: Global, host: u32, flows: &[Flow]) -> Result<Share, Memory>
        requires { HaveAddresses flows.now }
        ensures packets { IfOk result (λ share. share.packets ≡ packets_of flows.now host) }
        ensures sent { IfOk result (λ share. share.sent ≡ 0) }
    {
        let flows = own_flows(alloc, host, flows)?;
        let count = count_of(flows.as_slice())?;
        Ok(Share {
            flows,
            count,
            flow: 0,
            number: 0,
        })
    }

    /// How many packets there are, those that are sent among them.
    pub fn count(&self) -> u64
        ensures { result ≡ length self.now.packets }
    {
        self.count
    }

    /// The next packet to send, where one is left.
    pub fn next(&self) -> Option<Packet>
        ensures { result ≡ slice_get self.now.packets self.now.sent }
    {
        packet_at(self.flows.as_slice(), self.flow, self.number)
    }

    /// Counts the next packet as sent. Where none is left it does nothing.
    pub fn step(&mut self)
        ensures packets { self.new.packets ≡ self.old.packets }
        ensures sent { self.new.sent ≡ min (self.old.sent + 1) (length self.old.packets) }
    {
        let (flow, number) = place_after(self.flows.as_slice(), self.flow, self.number);
        self.flow = flow;
        self.number = number;
    }
}
