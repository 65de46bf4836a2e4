// The messages that turns take and put.
ghost use Rattle.std.specs.Prelude.{◌≡◌};
ghost use Rattle.sl_saves.specs.Rings.{ring_window};

use sl_ids::{Wid, Width};
use sl_machine::{Memory, Outputs};
use sl_net::Packet;
use sl_saves::{RingSaves, Saved, Saves, View};
use sl_wire::{Boxed, Done, Dump, Frame, Framed, Header, Kind, Msg, Rows, Spare, plain_frame};
use std::alloc::{AllocError, Global};
use std::test::Fail;

/// What happens in a turn: an action, or a message comes.
#[derive(Clone, Copy)]
pub enum Event {
    /// The action of the choice.
    Act,
    Begin(u64),
    Notice,
    Poll,
    /// A probe from port 0 with this stamp.
    Probe(u64),
    /// A packet from port 0 to the host 1, with this stamp.
    Data(u64),
    /// The plain frame of a packet with this destination and hop limit, its byte at a place
    /// changed by so much.
    Frame(u16, u8, usize, u8),
    /// A dump of this number, with the last-seen number of the control plane and that of each channel.
    Dump(u64, u64, u64),
    /// A report on a unit, with rows from one number to another, the number that it has reached.
    Done(u32, u64, u64),
}

/// A packet of 100 bytes.
fn packet(dst: u16, hops: u8) -> Packet {
    Packet {
        src: 0,
        dst,
        seq: 0,
        len: 100,
        hops,
    }
}

fn frame(packet: &Packet, place: usize, more: u8) -> Frame {
    let mut bytes = plain_frame(packet).bytes;
    if place < 24 {
        bytes[place] = bytes[place].wrapping_add(more);
    }
    Frame { bytes }
}

/// A packet or what a probe has in its place, framed from port 0 with this stamp.
fn stamped(kind: Kind, stamp: u64, packet: &Packet) -> Msg {
    let header = Header {
        kind,
        id: wid(stamp),
        channel: 0,
    };
    Msg::Frame(Framed::of(1, &header, packet))
}

/// What a probe has in place of a packet.
fn no_packet() -> Packet {
    Packet {
        len: 0,
        ..packet(0, 0)
    }
}

/// Adopts by so much, where that is from 1 to 3.
fn adopt_some(saves: &mut RingSaves, by: u64, packets: u64, bytes: u64)
    requires { ring_window saves.old ≡ 3 }
    ensures { ring_window saves.new ≡ 3 }
{
    if by >= 1 && by <= 3 {
        saves.adopt(by as u16, packets, bytes);
    }
}

/// A view of three slots of a unit that went from 0 to a number below 7, by at most 3 in one step.
fn view_at(alloc: Global, id: u64) -> Result<View, Memory> {
    let mut saves = RingSaves::new(alloc, 3, 3, 1)?;
    adopt_some(&mut saves, id.min(3), 5, 500);
    adopt_some(&mut saves, id.saturating_sub(3), 7, 700);
    saves.view()
}

/// The wrapped id of two bits of a number below 100. From 100 on it is the number itself.
fn wid(number: u64) -> Wid {
    let raw = if number < 100 { number % 4 } else { number };
    Wid {
        raw: raw.min(1000) as u16,
    }
}

fn dump(alloc: Global, id: u64, cpu: u64, seen: u64) -> Result<Boxed<Dump>, Memory> {
    let dump = Dump {
        id: wid(id),
        cpu: wid(cpu),
        last: [wid(seen); 8],
        view: view_at(alloc, id)?,
    };
    Boxed::new(alloc, dump).map_err(|_| Memory)
}

/// A report that a unit has reached a number, with rows up to it.
pub fn report(
    alloc: Global,
    unit: u32,
    first: u64,
    reached: u64,
) -> Result<Boxed<Done>, AllocError> {
    let mut items = Vec::new(alloc);
    for number in first..reached.saturating_add(1) {
        items.push((number, Saved::Skipped { to: number }))?;
    }
    let mut last = [0; 8];
    last[0] = reached;
    let done = Done {
        unit,
        id: reached,
        last,
        floor: reached,
        rows: Rows { items },
    };
    Boxed::new(alloc, done)
}

/// The message that comes, where one does.
pub fn message(alloc: Global, event: Event) -> Result<Option<Msg>, Fail> {
    Ok(match event {
        Event::Act => None,
        Event::Begin(number) => Some(Msg::Begin(number)),
        Event::Notice => Some(Msg::Notice),
        Event::Poll => Some(Msg::Poll(Spare::new(None))),
        Event::Probe(stamp) => Some(stamped(Kind::Probe, stamp, &no_packet())),
        Event::Data(stamp) => Some(stamped(Kind::Carried, stamp, &packet(1, 8))),
        Event::Frame(dst, hops, place, more) => {
            let frame = frame(&packet(dst, hops), place, more);
            Some(Msg::Frame(Framed::new(&frame.bytes)))
        }
        Event::Dump(id, cpu, seen) => Some(Msg::Dump(dump(alloc, id, cpu, seen)?)),
        Event::Done(unit, first, reached) => {
            Some(Msg::Done(report(alloc, unit, first, reached)?))
        }
    })
}

/// A report as a number from 1000 on: 1000 times the unit and 1, 100 times its rows, ten times its
/// floor, and its first last-seen id.
fn coded_report(done: &Done) -> u64 {
    u64::from(done.unit)
        .wrapping_add(1)
        .wrapping_mul(1000)
        .wrapping_add((done.rows.items.len() as u64).wrapping_mul(100))
        .wrapping_add(done.floor.wrapping_mul(10))
        .wrapping_add(done.last[0])
}

/// The snapshot header of a frame as a number: a digit for its kind, the sender's port, and the
/// wrapped id.
fn coded_header(header: &Header) -> u64 {
    let id = u64::from(header.id.raw);
    let port = u64::from(header.channel) * 10;
    match header.kind {
        Kind::Plain => 3,
        Kind::Init => 100 + id,
        Kind::Probe => 300 + port + id,
        Kind::Carried => 400 + port + id,
    }
}

/// A message as a number below 10,000: a digit for its kind, and what it says.
fn coded(m: &Msg) -> u64 {
    match m {
        Msg::Frame(_) | Msg::Wire(_) => match m.frame(Width { bits: 2 }) {
            Some((header, _)) => coded_header(&header),
            None => 5,
        },
        Msg::Poll(_) => 1,
        Msg::Notice => 2,
        Msg::Dump(_) => 4,
        Msg::Begin(number) => number.wrapping_add(200),
        Msg::Done(done) => coded_report(done.get()),
    }
}

/// The puts of a turn, five digits each: the link, and the message.
pub fn all_coded(out: &Outputs<Msg>) -> u64 {
    let mut code: u64 = 0;
    for (link, m) in out.items() {
        let put = u64::from(*link).wrapping_mul(10_000).wrapping_add(coded(m));
        code = code.wrapping_mul(100_000).wrapping_add(put);
    }
    code
}
