// What a unit makes of the messages that it takes.
ghost use Rattle.std.specs.Prelude.{◌≡◌, ◌+◌, ◌≤◌, ◌<◌, ◌++◌, ◌==◌, [], if◌then◌else◌, length};
ghost use Rattle.sl_wire.specs.declared.message.Msg.TheVariants.{Notice};
ghost use Rattle.sl_wire.specs.Carried.{framed, poll};
ghost use Rattle.sl_wire.specs.Frames.{plain_header};
ghost use Rattle.sl_unit.specs.Wires.{outs};
ghost use Rattle.sl_unit.specs.Step.{data_frame, probe_frame, routed, passed, probed, initiated};
ghost use Rattle.sl_unit.specs.Step.{plain_of, send, take_at, from_host, cable_data, cable_probe};
ghost use Rattle.sl_unit.specs.Step.{by_cable, crossbar_data, crossbar_probe, by_crossbar};
ghost use Rattle.sl_unit.specs.Step.{initiation};
ghost use Rattle.sl_unit.specs.Room.{registers_of, credits_of, state_of, HasDumps};
ghost use Rattle.sl_unit.specs.Notes.{message_of};

use crate::puts::{Note, put_dumps, put_on};
use crate::registers::{Channel, Registers, RelativeStamp};
use crate::wires::{Entrance, Way, Wires};
use sl_ids::{Wid, Width};
use sl_machine::Outputs;
use sl_net::{Packet, Sort};
use sl_wire::{Boxed, Dump, Framed, Header, Kind, Msg, WireFault};

/// The header of a frame that a unit sends to another, with its id and port.
fn header_of(wires: &Wires, registers: &Registers, kind: Kind) -> Header
    ensures { result
        ≡ record { kind = kind; id = (registers_of registers.now).id; channel = wires.now.port } }
{
    Header {
        kind,
        id: registers.id,
        channel: wires.port(),
    }
}

/// A data packet on its way to another unit.
fn data_note(wires: &Wires, registers: &Registers, packet: &Packet) -> Note
    ensures { message_of result ≡ data_frame wires.now (registers_of registers.now) packet.now }
{
    let header = header_of(wires, registers, Kind::Carried);
    Note::Frame(Framed::of(wires.version(), &header, packet))
}

/// A probe to another unit.
fn probe_note(wires: &Wires, registers: &Registers) -> Note
    ensures { message_of result ≡ probe_frame wires.now (registers_of registers.now) }
{
    let header = header_of(wires, registers, Kind::Probe);
    let packet = Packet {
        src: 0,
        dst: 0,
        seq: 0,
        len: 0,
        hops: 0,
    };
    Note::Frame(Framed::of(wires.version(), &header, &packet))
}

/// Puts a notice where the last-seen id of a channel changes.
fn put_notice(wires: &Wires, ahead: u16, out: &mut Outputs<Msg>)
    requires room { length out.old.items + length (outs (Way.All Sort.Notice) wires.now.exits)
        ≤ out.old.room }
    ensures puts { out.new.items ≡ out.old.items
        ++ (if ahead == 0 then [] else send wires.now (Way.All Sort.Notice) Notice) }
    ensures room { out.new.room ≡ out.old.room }
{
    if ahead != 0 {
        put_on(wires, Way::All(Sort::Notice), &Note::Notice, out);
    }
}

/// Sends a data packet on from an ingress unit, or drops it.
#[tactic(auto, using(crate::proofs::Ways::outs_few))]
#[inline(always)]
fn route(wires: &Wires, registers: &mut Registers, packet: Packet, out: &mut Outputs<Msg>)
    requires empty { out.old.items ≡ [] }
    requires room { length wires.now.exits ≤ out.old.room }
    ensures registers { registers_of registers.new
        ≡ (routed wires.now packet (registers_of registers.old)).state }
    ensures puts { out.new.items ≡ (routed wires.now packet (registers_of registers.old)).puts }
    ensures window { registers.new.window ≡ registers.old.window }
    ensures credits { credits_of registers.new ≡ credits_of registers.old }
    ensures room { out.new.room ≡ out.old.room }
{
    if packet.hops == 0 {
        registers.count_expired();
        return;
    }
    match wires.port_to(packet.dst) {
        None => registers.count_noroute(),
        Some(port) => {
            let way = Way::Toward {
                device: wires.device(),
                port: u32::from(port),
            };
            let onward = Packet {
                hops: packet.hops - 1,
                ..packet
            };
            put_on(wires, way, &data_note(wires, registers, &onward), out);
        }
    }
}

/// Sends a data packet on over the cable.
fn pass_to_cable(wires: &Wires, registers: &Registers, packet: &Packet, out: &mut Outputs<Msg>)
    requires room { length out.old.items + length (outs (Way.All Sort.Cable) wires.now.exits)
        ≤ out.old.room }
    ensures puts { out.new.items ≡ out.old.items ++ send wires.now (Way.All Sort.Cable)
        (data_frame wires.now (registers_of registers.now) packet.now) }
    ensures room { out.new.room ≡ out.old.room }
{
    let way = Way::All(Sort::Cable);
    if !wires.has_none(way) {
        put_on(wires, way, &data_note(wires, registers, packet), out);
    }
}

/// Sends a data packet on to the host.
fn pass_to_host(wires: &Wires, packet: &Packet, out: &mut Outputs<Msg>)
    requires room { length out.old.items + length (outs (Way.All Sort.ToHost) wires.now.exits)
        ≤ out.old.room }
    ensures puts { out.new.items ≡ out.old.items ++ send wires.now (Way.All Sort.ToHost)
        (framed 1 plain_header packet.now) }
    ensures room { out.new.room ≡ out.old.room }
{
    let way = Way::All(Sort::ToHost);
    if !wires.has_none(way) {
        put_on(wires, way, &Note::Frame(Framed::plain(packet)), out);
    }
}

/// Sends a data packet on from an egress unit.
#[tactic(auto, using(crate::proofs::Ways::outs_few))]
fn pass(wires: &Wires, registers: &Registers, packet: &Packet, out: &mut Outputs<Msg>)
    requires empty { out.old.items ≡ [] }
    requires room { length wires.now.exits ≤ out.old.room }
    ensures puts { out.new.items ≡ (passed wires.now packet.now (registers_of registers.now)).puts }
    ensures room { out.new.room ≡ out.old.room }
{
    pass_to_cable(wires, registers, packet, out);
    pass_to_host(wires, packet, out);
}

/// The packet, where it is a plain frame that was read.
fn plain_of(read: Result<(u8, Header, Packet), WireFault>) -> Option<Packet>
    ensures { result ≡ plain_of read }
{
    match read {
        Ok((_version, header, packet)) => match header.kind {
            Kind::Plain => Some(packet),
            _ => None,
        },
        Err(_) => None,
    }
}

/// Takes a packet from the host, or bytes that are no plain frame.
#[tactic(auto, using(crate::proofs::Ways::routed_few))]
fn take_packet(
    wires: &Wires,
    registers: &mut Registers,
    packet: Option<Packet>,
    out: &mut Outputs<Msg>,
)
    requires empty { out.old.items ≡ [] }
    requires room { length wires.now.exits ≤ out.old.room }
    ensures state { state_of wires.now registers.new
        ≡ (from_host (state_of wires.now registers.old) packet).state }
    ensures puts { out.new.items ≡ (from_host (state_of wires.now registers.old) packet).puts }
    ensures room { out.new.room ≡ out.old.room }
{
    match packet {
        None => registers.count_bad(),
        Some(packet) => {
            registers.count(packet.len);
            route(wires, registers, packet, out);
        }
    }
}

/// Takes a message from the host.
pub fn take_host(wires: &Wires, registers: &mut Registers, m: &Msg, out: &mut Outputs<Msg>)
    requires empty { out.old.items ≡ [] }
    requires room { length wires.now.exits ≤ out.old.room }
    ensures state { state_of wires.now registers.new
        ≡ (take_at Entrance.Host (state_of wires.now registers.old) m.now).state }
    ensures puts { out.new.items
        ≡ (take_at Entrance.Host (state_of wires.now registers.old) m.now).puts }
    ensures room { out.new.room ≡ out.old.room }
{
    if let Some(read) = m.read(wires.width()) {
        take_packet(wires, registers, plain_of(read), out);
    }
}

/// Takes a data packet from the cable.
#[tactic(auto, using(crate::proofs::Ways::routed_few))]
fn take_cable_data(
    wires: &Wires,
    registers: &mut Registers,
    place: u32,
    reading: RelativeStamp,
    packet: Packet,
    out: &mut Outputs<Msg>,
)
    requires empty { out.old.items ≡ [] }
    requires room { length wires.now.exits ≤ out.old.room }
    requires channel { place < 8 }
    ensures state { state_of wires.now registers.new
        ≡ (cable_data (state_of wires.now registers.old) place packet reading).state }
    ensures puts { out.new.items
        ≡ (cable_data (state_of wires.now registers.old) place packet reading).puts }
    ensures room { out.new.room ≡ out.old.room }
{
    if reading.is_near(registers.window) {
        registers.take_data(place, reading, packet.len);
        route(wires, registers, packet, out);
        put_notice(wires, reading.ahead, out);
    }
}

/// Takes a probe from the cable.
#[tactic(auto, using(crate::proofs::Ways::outs_few))]
fn take_cable_probe(
    wires: &Wires,
    registers: &mut Registers,
    place: u32,
    reading: RelativeStamp,
    out: &mut Outputs<Msg>,
)
    requires empty { out.old.items ≡ [] }
    requires room { length wires.now.exits ≤ out.old.room }
    requires channel { place < 8 }
    ensures state { state_of wires.now registers.new
        ≡ (cable_probe (state_of wires.now registers.old) place reading).state }
    ensures puts { out.new.items
        ≡ (cable_probe (state_of wires.now registers.old) place reading).puts }
    ensures room { out.new.room ≡ out.old.room }
{
    if reading.is_near(registers.window) {
        registers.take_stamp(Channel::Upstream(place), reading);
        put_notice(wires, reading.ahead, out);
    }
}

/// Takes a frame from the cable, by its kind.
fn take_cable_frame(
    wires: &Wires,
    registers: &mut Registers,
    place: u32,
    header: &Header,
    packet: Packet,
    out: &mut Outputs<Msg>,
)
    requires empty { out.old.items ≡ [] }
    requires room { length wires.now.exits ≤ out.old.room }
    requires channel { place < 8 }
    ensures state { state_of wires.now registers.new
        ≡ (by_cable place (state_of wires.now registers.old) header.now.kind
        header.now.id packet).state }
    ensures puts { out.new.items
        ≡ (by_cable place (state_of wires.now registers.old) header.now.kind
        header.now.id packet).puts }
    ensures room { out.new.room ≡ out.old.room }
{
    let reading = registers.read(wires.width(), Channel::Upstream(place), header.id);
    match header.kind {
        Kind::Carried => take_cable_data(wires, registers, place, reading, packet, out),
        Kind::Probe => take_cable_probe(wires, registers, place, reading, out),
        _ => {}
    }
}

/// Takes a message from the cable.
pub fn take_cable(
    wires: &Wires,
    registers: &mut Registers,
    place: u32,
    m: &Msg,
    out: &mut Outputs<Msg>,
)
    requires empty { out.old.items ≡ [] }
    requires room { length wires.now.exits ≤ out.old.room }
    requires channel { place < 8 }
    ensures state { state_of wires.now registers.new
        ≡ (take_at (Entrance.Cable place) (state_of wires.now registers.old) m.now).state }
    ensures puts { out.new.items
        ≡ (take_at (Entrance.Cable place) (state_of wires.now registers.old) m.now).puts }
    ensures room { out.new.room ≡ out.old.room }
{
    if let Some((header, packet)) = m.frame(wires.width()) {
        take_cable_frame(wires, registers, place, &header, packet, out);
    }
}

/// Takes a data packet from an ingress unit.
#[tactic(auto, using(crate::proofs::Ways::passed_few))]
fn take_crossbar_data(
    wires: &Wires,
    registers: &mut Registers,
    place: u32,
    reading: RelativeStamp,
    packet: &Packet,
    out: &mut Outputs<Msg>,
)
    requires empty { out.old.items ≡ [] }
    requires room { length wires.now.exits ≤ out.old.room }
    requires channel { place < 8 }
    ensures state { state_of wires.now registers.new
        ≡ (crossbar_data (state_of wires.now registers.old) place packet.now reading).state }
    ensures puts { out.new.items
        ≡ (crossbar_data (state_of wires.now registers.old) place packet.now reading).puts }
    ensures room { out.new.room ≡ out.old.room }
{
    if reading.is_near(registers.window) {
        registers.take_data(place, reading, packet.len);
        pass(wires, registers, packet, out);
        put_notice(wires, reading.ahead, out);
    }
}

/// Sends a probe on from an egress unit, where it comes from the ingress unit of its port.
#[tactic(auto, using(crate::proofs::Ways::outs_few))]
fn probe(wires: &Wires, registers: &Registers, own: bool, out: &mut Outputs<Msg>)
    requires empty { out.old.items ≡ [] }
    requires room { length wires.now.exits ≤ out.old.room }
    ensures puts { out.new.items ≡ (probed wires.now own (registers_of registers.now)).puts }
    ensures room { out.new.room ≡ out.old.room }
{
    if own {
        let onward = probe_note(wires, registers);
        put_on(wires, Way::All(Sort::Cable), &onward, out);
    }
}

/// Takes a probe from an ingress unit.
#[tactic(auto, using(crate::proofs::Ways::probed_few))]
fn take_crossbar_probe(
    wires: &Wires,
    registers: &mut Registers,
    place: u32,
    own: bool,
    reading: RelativeStamp,
    out: &mut Outputs<Msg>,
)
    requires empty { out.old.items ≡ [] }
    requires room { length wires.now.exits ≤ out.old.room }
    requires channel { place < 8 }
    ensures state { state_of wires.now registers.new
        ≡ (crossbar_probe (state_of wires.now registers.old) place own reading).state }
    ensures puts { out.new.items
        ≡ (crossbar_probe (state_of wires.now registers.old) place own reading).puts }
    ensures room { out.new.room ≡ out.old.room }
{
    if reading.is_near(registers.window) {
        registers.take_stamp(Channel::Upstream(place), reading);
        probe(wires, registers, own, out);
        put_notice(wires, reading.ahead, out);
    }
}

/// Takes a frame from an ingress unit, by its kind.
fn take_crossbar_frame(
    wires: &Wires,
    registers: &mut Registers,
    place: u32,
    own: bool,
    header: &Header,
    packet: &Packet,
    out: &mut Outputs<Msg>,
)
    requires empty { out.old.items ≡ [] }
    requires room { length wires.now.exits ≤ out.old.room }
    requires channel { place < 8 }
    ensures state { state_of wires.now registers.new
        ≡ (by_crossbar place own (state_of wires.now registers.old)
        header.now.kind header.now.id packet.now).state }
    ensures puts { out.new.items
        ≡ (by_crossbar place own (state_of wires.now registers.old)
        header.now.kind header.now.id packet.now).puts }
    ensures room { out.new.room ≡ out.old.room }
{
    let reading = registers.read(wires.width(), Channel::Upstream(place), header.id);
    match header.kind {
        Kind::Carried => take_crossbar_data(wires, registers, place, reading, packet, out),
        Kind::Probe => take_crossbar_probe(wires, registers, place, own, reading, out),
        _ => {}
    }
}

/// Takes a message from an ingress unit.
pub fn take_crossbar(
    wires: &Wires,
    registers: &mut Registers,
    place: u32,
    own: bool,
    m: &Msg,
    out: &mut Outputs<Msg>,
)
    requires empty { out.old.items ≡ [] }
    requires room { length wires.now.exits ≤ out.old.room }
    requires channel { place < 8 }
    ensures state { state_of wires.now registers.new
        ≡ (take_at (Entrance.Crossbar place own) (state_of wires.now registers.old) m.now).state }
    ensures puts { out.new.items
        ≡ (take_at (Entrance.Crossbar place own) (state_of wires.now registers.old) m.now).puts }
    ensures room { out.new.room ≡ out.old.room }
{
    if let Some((header, packet)) = m.frame(wires.width()) {
        take_crossbar_frame(wires, registers, place, own, &header, &packet, out);
    }
}

/// Sends an initiation on as probes.
#[tactic(auto, using(crate::proofs::Ways::outs_few))]
fn initiate(wires: &Wires, registers: &Registers, out: &mut Outputs<Msg>)
    requires empty { out.old.items ≡ [] }
    requires room { length wires.now.exits ≤ out.old.room }
    ensures puts { out.new.items ≡ (initiated wires.now (registers_of registers.now)).puts }
    ensures room { out.new.room ≡ out.old.room }
{
    let onward = probe_note(wires, registers);
    put_on(wires, Way::All(Sort::Crossbar), &onward, out);
}

/// Takes an initiation, as it is read.
#[tactic(auto, using(crate::proofs::Ways::initiated_few))]
fn take_initiation(
    wires: &Wires,
    registers: &mut Registers,
    reading: RelativeStamp,
    out: &mut Outputs<Msg>,
)
    requires empty { out.old.items ≡ [] }
    requires room { length wires.now.exits ≤ out.old.room }
    ensures state { state_of wires.now registers.new
        ≡ (initiation (state_of wires.now registers.old) reading).state }
    ensures puts { out.new.items ≡ (initiation (state_of wires.now registers.old) reading).puts }
    ensures room { out.new.room ≡ out.old.room }
{
    if reading.is_near(registers.window) {
        registers.take_stamp(Channel::Cpu, reading);
        initiate(wires, registers, out);
        put_notice(wires, reading.ahead, out);
    }
}

/// Takes a message from the control plane's link of initiations.
pub fn take_init(wires: &Wires, registers: &mut Registers, m: &Msg, out: &mut Outputs<Msg>)
    requires empty { out.old.items ≡ [] }
    requires room { length wires.now.exits ≤ out.old.room }
    ensures state { state_of wires.now registers.new
        ≡ (take_at Entrance.Init (state_of wires.now registers.old) m.now).state }
    ensures puts { out.new.items
        ≡ (take_at Entrance.Init (state_of wires.now registers.old) m.now).puts }
    ensures room { out.new.room ≡ out.old.room }
{
    if let Some((header, _packet)) = m.frame(wires.width()) {
        if let Kind::Init = header.kind {
            let reading = registers.read(wires.width(), Channel::Cpu, header.id);
            take_initiation(wires, registers, reading, out);
        }
    }
}

/// Takes a poll.
#[tactic(auto, using(crate::proofs::Ways::outs_few))]
fn take_poll(
    wires: &Wires,
    registers: &Registers,
    dumps: &mut Vec<Boxed<Dump>>,
    out: &mut Outputs<Msg>,
)
    requires empty { out.old.items ≡ [] }
    requires room { length wires.now.exits ≤ out.old.room }
    requires dumps { HasDumps wires.now (registers_of registers.now) dumps.old.items }
    ensures puts { out.new.items
        ≡ (take_at Entrance.Poll (state_of wires.now registers.now) poll).puts }
    ensures room { out.new.room ≡ out.old.room }
{
    put_dumps(wires, dumps, out);
}

/// Takes a message from the control plane's link of polls. A dump that comes back with a poll
/// becomes the spare one.
pub fn take_polled(
    wires: &Wires,
    registers: &Registers,
    dumps: &mut Vec<Boxed<Dump>>,
    spare: &mut Option<Boxed<Dump>>,
    m: Msg,
    out: &mut Outputs<Msg>,
)
    requires empty { out.old.items ≡ [] }
    requires room { length wires.now.exits ≤ out.old.room }
    requires dumps { HasDumps wires.now (registers_of registers.now) dumps.old.items }
    ensures state { (take_at Entrance.Poll (state_of wires.now registers.now) m).state
        ≡ state_of wires.now registers.now }
    ensures puts { out.new.items
        ≡ (take_at Entrance.Poll (state_of wires.now registers.now) m).puts }
    ensures room { out.new.room ≡ out.old.room }
{
    if let Msg::Poll(back) = m {
        take_poll(wires, registers, dumps, out);
        *spare = back.into_dump();
    }
}
