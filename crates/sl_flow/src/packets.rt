// The packets of a host.
ghost use Rattle.std.specs.Prelude.{◌≡◌, ◌++◌, IfOk, OnOk, cond, ◌==◌, []};
ghost use Rattle.sl_flow.specs.Flow.{packet_in, flow_packets, packets_of, HasAddresses, HaveAddresses};

use sl_machine::Memory;
use sl_net::{Flow, Packet};
use std::alloc::{AllocError, Global};

/// The packet with a number in a flow.
pub(crate) fn packet_in(flow: Flow, number: u32) -> Packet
    requires { HasAddresses flow }
    ensures { result ≡ packet_in flow number }
{
    Packet {
        src: flow.from as u16,
        dst: flow.to as u16,
        seq: number,
        len: flow.bytes,
        hops: flow.hops,
    }
}

/// Adds the packets of a flow.
fn add_flow(packets: &mut Vec<Packet>, flow: Flow) -> Result<(), AllocError>
    requires { HasAddresses flow }
    ensures { OnOk result (packets.new.items ≡ packets.old.items ++ flow_packets flow) }
{
    for number in 0..flow.count {
        packets.push(packet_in(flow, number))?;
    }
    Ok(())
}

/// Adds the packets of a flow where it comes from this host.
fn add_share(packets: &mut Vec<Packet>, flow: Flow, host: u32) -> Result<(), AllocError>
    requires { HasAddresses flow }
    ensures { OnOk result
        (packets.new.items ≡ packets.old.items ++ cond (flow.from == host) (flow_packets flow) []) }
{
    if flow.from == host {
        add_flow(packets, flow)?;
    }
    Ok(())
}

/// The packets that a host sends: those of its flows in input order, each flow whole, numbered
/// from 0 in each. Hosts are named by their places, which have 16 bits in a packet.
#[tactic(auto, using(crate::proofs::Shares::packets_more))]
pub fn packets_of(alloc: Global, host: u32, flows: &[Flow]) -> Result<Vec<Packet>, Memory>
    requires { HaveAddresses flows.now }
    ensures { IfOk result (λ packets. packets.items ≡ packets_of flows.now host) }
{
    let mut packets = Vec::new(alloc);
    for flow in flows {
        add_share(&mut packets, *flow, host)?;
    }
    Ok(packets)
}
