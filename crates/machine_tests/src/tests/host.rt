// The host of a device with one port.
ghost use Rattle.std.specs.Prelude.{IfOk};
ghost use Rattle.std.specs.List.{All};
ghost use Rattle.sl_flow.specs.Flow.{HasAddresses};

use super::nets::{net, sent};
use super::rig::Rig;
use sl_host::Host;
use sl_machine::Outputs;
use sl_net::{Bytes, Flow, Input, LossSpec, Packet, RawPart, Snapshot};
use sl_wire::{Framed, Msg, Spare};
use std::alloc::{AllocError, Global};
use std::test::Fail;

fn raw(alloc: Global, from: u32, byte: u8) -> Result<RawPart, AllocError> {
    let items = Vec::from_slice(alloc, &[byte, 7])?;
    Ok(RawPart {
        from,
        bytes: Bytes { items },
    })
}

/// Raw frames of the host and of another.
fn raws(alloc: Global) -> Result<Vec<RawPart>, AllocError> {
    let mut raws = Vec::new(alloc);
    let parts = [(0, 1), (1, 2), (0, 3)];
    for (from, byte) in &parts {
        raws.push(raw(alloc, *from, *byte)?)?;
    }
    Ok(raws)
}

/// Two packets of the host to itself, and raw frames.
fn input(alloc: Global) -> Result<Input, Fail>
    ensures { IfOk result (λ i. All HasAddresses i.flows) }
{
    let flow = Flow {
        from: 0,
        to: 0,
        count: 2,
        bytes: 100,
        hops: 8,
    };
    let flows = Vec::from_slice(alloc, &[flow])?;
    let raws = raws(alloc)?;
    let net = net(alloc, 1)?;
    Ok(Input {
        net,
        snapshot: Snapshot {
            width: 2,
            window: 3,
            ring: 3,
            count: 1,
            retries: 0,
            credits: 1,
            version: 1,
        },
        loss: LossSpec {
            seed: 0,
            cable: 0,
            crossbar: 0,
            init: 0,
            notice: 0,
            drops: Vec::new(alloc),
        },
        flows,
        raws,
        script: Vec::new(alloc),
    })
}

/// The first host of an input.
fn host_of(alloc: Global, input: &Input) -> Result<Rig<Host>, Fail>
    requires { All HasAddresses input.now.flows }
{
    Ok(Rig {
        machine: sent(Host::new(alloc, 0, input)?),
        ins: 1,
        outs: 1,
        actions: 1,
    })
}

fn host(alloc: Global) -> Result<Rig<Host>, Fail> {
    let input = input(alloc)?;
    host_of(alloc, &input)
}

/// Whether a turn put just a message that carries these bytes, on the first link.
fn puts(mut out: Outputs<Msg>, bytes: &[u8]) -> bool {
    match out.take_first() {
        Some((0, message)) => carries(&message, bytes),
        _ => false,
    }
}

/// Whether the host sends these bytes next.
fn sends_next(alloc: Global, host: &mut Rig<Host>, bytes: &[u8]) -> Result<bool, Fail> {
    match host.act(alloc, 1)? {
        Some(out) => Ok(puts(out, bytes)),
        None => Ok(false),
    }
}

/// Whether a message carries these bytes.
fn carries(message: &Msg, bytes: &[u8]) -> bool {
    match message {
        Msg::Frame(frame) => &frame.frame().bytes[..] == bytes,
        Msg::Wire(carried) => carried.items.as_slice() == bytes,
        _ => false,
    }
}

static FRAMES: [&[u8]; 4] = [
    b"\0\0\0\0\0\0\0\0\0\0\0\0\0d\x08\x01\0\0\0\0\0\0\0\0",
    b"\0\0\0\0\0\0\0\0\0\0\0\x01\0d\x08\x01\0\0\0\0\0\0\0\0",
    b"\x01\x07",
    b"\x03\x07",
];

fn frames() -> &'static [&'static [u8]] {
    &FRAMES
}

/// The place of the first frame that is sent otherwise, or the number of frames.
fn first_wrong(alloc: Global, host: &mut Rig<Host>, frames: &[&[u8]]) -> Result<usize, Fail> {
    for place in 0..frames.len() {
        if !sends_next(alloc, host, frames[place])? {
            return Ok(place);
        }
    }
    Ok(frames.len())
}

/// How many frames are sent as they should be, whether nothing comes then, and how many were sent.
fn sends(alloc: Global, host: &mut Rig<Host>) -> Result<(usize, bool, u64), Fail> {
    let right = first_wrong(alloc, host, frames())?;
    let is_done = host.act(alloc, 1)?.is_none();
    Ok((right, is_done, host.machine.sent()))
}

/// The same of a new host.
fn sent_by_new(alloc: Global) -> Result<(usize, bool, u64), Fail> {
    let mut host = host(alloc)?;
    sends(alloc, &mut host)
}

#[test]
fn packets_then_raw_frames(rt: HostRuntime) -> Result<(), Fail> {
    assert_eq!(rt; sent_by_new(rt.alloc())?, (4, true, 4));
    Ok(())
}

/// How many frames the host has taken after this message.
fn taken(alloc: Global, host: &mut Rig<Host>, m: Msg) -> Result<u64, Fail> {
    host.take(alloc, 0, m)?;
    Ok(host.machine.delivered())
}

/// How many it has taken after each of three, of which the last is no frame.
fn all_taken(alloc: Global, host: &mut Rig<Host>) -> Result<(u64, u64, u64), Fail> {
    let packet = Packet {
        src: 0,
        dst: 0,
        seq: 0,
        len: 100,
        hops: 1,
    };
    let bytes = raw(alloc, 0, 5)?.bytes;
    let first = taken(alloc, host, Msg::Frame(Framed::plain(&packet)))?;
    let second = taken(alloc, host, Msg::carrying(bytes))?;
    let third = taken(alloc, host, Msg::Poll(Spare::new(None)))?;
    Ok((first, second, third))
}

/// The same of a new host.
fn taken_by_new(alloc: Global) -> Result<(u64, u64, u64), Fail> {
    let mut host = host(alloc)?;
    all_taken(alloc, &mut host)
}

#[test]
fn frames_are_counted(rt: HostRuntime) -> Result<(), Fail> {
    assert_eq!(rt; taken_by_new(rt.alloc())?, (1, 2, 2));
    Ok(())
}
