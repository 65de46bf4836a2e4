// Frames and the bytes that are refused, the least last-seen id, and messages between threads.
ghost use Rattle.std.specs.Prelude.{◌<◌, IsTrue};
ghost use Rattle.sl_wire.specs.declared.frame.Kind.TheVariants.{Carried};
ghost use Rattle.sl_wire.specs.Frames.{stamp_fits, version_fits};

use sl_ids::{Wid, Width};
use sl_net::Packet;
use sl_saves::{Slots, View};
use sl_wire::{
    Boxed, Done, Dump, Header, Kind, Msg, Rows, WireFault, are_wids, decode, encode, has_room,
    have_room, is_wid, plain_frame, reached,
};
use std::alloc::{AllocError, Global};
use std::test::Fail;

const CARRIED: [u8; 24] = *b"\x01\x01\0\x03\0\0\0\x01\0\0\0\x02\0\x64\x07\x01\0\0\0\0\0\0\0\0";

/// The carried frame in version 2, whose check is 65535 less its id.
const CHECKED: [u8; 24] = *b"\x01\x01\0\x03\0\0\0\x01\0\0\0\x02\0\x64\x07\x02\xff\xfc\0\0\0\0\0\0";

const PLAIN: [u8; 24] = *b"\0\0\0\0\0\0\0\x01\0\0\0\0\0\x64\x08\x01\0\0\0\0\0\0\0\0";

const PROBE: [u8; 24] = *b"\x02\0\0\x01\0\0\0\0\0\0\0\0\0\0\0\x01\0\0\0\0\0\0\0\0";

const INITIATION: [u8; 24] = *b"\x03\xff\0\x01\0\0\0\0\0\0\0\0\0\0\0\x01\0\0\0\0\0\0\0\0";

const EMPTY: Packet = Packet {
    src: 0,
    dst: 0,
    seq: 0,
    len: 0,
    hops: 0,
};

const FIRST: Packet = Packet {
    src: 0,
    dst: 1,
    seq: 2,
    len: 100,
    hops: 7,
};

const SECOND: Packet = Packet {
    src: 0,
    dst: 1,
    seq: 0,
    len: 100,
    hops: 8,
};

/// The bits of ids, the version and bytes of a frame, and what it is a frame of: the header's kind,
/// id and channel, and the packet.
type Row = (u8, u8, [u8; 24], Kind, u16, u8, Packet);

static ROWS: [Row; 5] = [
    (2, 1, CARRIED, Kind::Carried, 3, 1, FIRST),
    (2, 1, PLAIN, Kind::Plain, 0, 0, SECOND),
    (2, 1, PROBE, Kind::Probe, 1, 0, EMPTY),
    (2, 1, INITIATION, Kind::Init, 1, 255, EMPTY),
    (16, 2, CHECKED, Kind::Carried, 3, 1, FIRST),
];

fn rows() -> &'static [Row] {
    &ROWS
}

/// Whether the frame of a row is read as what the row says, and that is written as the frame.
fn comes_back((bits, version, bytes, kind, id, channel, packet): &Row) -> bool {
    let Some(width) = Width::new(*bits) else {
        return false;
    };
    let header = Header {
        kind: *kind,
        id: Wid { raw: *id },
        channel: *channel,
    };
    match decode(width, bytes) {
        Ok((found, read, carried)) => {
            found == *version
                && read == header
                && carried == *packet
                && encode(width, found, &read, &carried).bytes == *bytes
        }
        Err(_) => false,
    }
}

/// The frames of the table with what they are frames of.
#[test]
fn frames_and_back(rt: HostRuntime) {
    assert_eq!(rt; rows().iter().position(|row| !comes_back(row)), None);
    assert!(rt; plain_frame(&SECOND).bytes == PLAIN);
}

#[test]
fn the_least_is_reached(rt: HostRuntime) -> Result<(), Fail> {
    let last = [7, 8, 6, 0, 0, 0, 0, 0];
    let least = (
        reached(2, 9, &last),
        reached(3, 5, &last),
        reached(0, 9, &last),
    );
    assert_eq!(rt; least, (7, 5, 9));
    Ok(())
}

/// Bytes that are changed at some places, and why they are no frame for ids of so many bits.
type Change = (u8, [u8; 24], &'static [(usize, u8)], WireFault);

static CHANGES: [Change; 10] = [
    (2, CARRIED, &[(0, 0x04)], WireFault::E2),
    (2, CARRIED, &[(3, 0x04)], WireFault::E3),
    (2, PLAIN, &[(3, 0x01)], WireFault::E3),
    (2, PLAIN, &[(16, 0x01)], WireFault::E4),
    (2, PROBE, &[(14, 0x01)], WireFault::E4),
    (2, CARRIED, &[(1, 0x08)], WireFault::E4),
    (16, CHECKED, &[(17, 0xfb)], WireFault::E5),
    (2, PLAIN, &[(15, 0x02)], WireFault::E2),
    // an id of nine bits in version 1, and a check and a reserved byte that are both wrong
    (16, CARRIED, &[(2, 0x01)], WireFault::E3),
    (16, CHECKED, &[(17, 0xfb), (23, 0x01)], WireFault::E4),
];

fn changes() -> &'static [Change] {
    &CHANGES
}

/// The same bytes but at some places.
fn changed(bytes: &[u8; 24], places: &[(usize, u8)]) -> [u8; 24] {
    let mut bytes = *bytes;
    for (place, byte) in places {
        if let Some(old) = bytes.get_mut(*place) {
            *old = *byte;
        }
    }
    bytes
}

/// Why bytes are no frame.
fn fault(bits: u8, bytes: &[u8]) -> Option<WireFault> {
    decode(Width::new(bits)?, bytes).err()
}

fn is_refused((bits, bytes, places, expected): &Change) -> bool {
    fault(*bits, &changed(bytes, places)) == Some(*expected)
}

#[test]
fn refused_bytes(rt: HostRuntime) {
    assert_eq!(rt; fault(2, &CARRIED[..23]), Some(WireFault::E1));
    assert_eq!(rt;
        changes().iter().position(|change| !is_refused(change)),
        None
    );
}

/// Whether a carried frame with this id is read as what it was made of, which is written as the
/// same bytes.
fn id_comes_back(width: Width, version: u8, id: u16) -> bool
    requires version { IsTrue (version_fits Carried version) }
    requires id { IsTrue (stamp_fits width.bits version id) }
{
    let header = Header {
        kind: Kind::Carried,
        id: Wid { raw: id },
        channel: 1,
    };
    let bytes = encode(width, version, &header, &EMPTY).bytes;
    comes_back(&(width.bits, version, bytes, Kind::Carried, id, 1, EMPTY))
}

/// The first id of 8 bits that doesn't come back in version 1.
fn first_narrow() -> Option<u16> {
    let width = Width::new(8)?;
    for id in 0..=255 {
        if !id_comes_back(width, 1, id) {
            return Some(id);
        }
    }
    None
}

/// The first id of 16 bits that doesn't come back in version 2.
fn first_wide() -> Option<u16> {
    let width = Width::new(16)?;
    for id in 0..=u16::MAX {
        if !id_comes_back(width, 2, id) {
            return Some(id);
        }
    }
    None
}

#[test]
fn all_ids_come_back(rt: HostRuntime) {
    assert_eq!(rt; (first_narrow(), first_wide()), (None, None));
}

/// Gives a value back that may go to another thread.
fn sent<T: Send>(value: T) -> T {
    value
}

/// A dump of no slots.
fn dump(alloc: Global) -> Result<Msg, AllocError> {
    let none = Wid { raw: 0 };
    let dump = Dump {
        id: none,
        cpu: none,
        last: [none; 8],
        view: View {
            at: 0,
            slots: Slots::new(Vec::new(alloc)),
        },
    };
    Ok(Msg::Dump(Boxed::new(alloc, dump)?))
}

/// A report of a unit with no rows.
fn done(alloc: Global, unit: u32) -> Result<Msg, AllocError> {
    let rows = Rows {
        items: Vec::new(alloc),
    };
    let done = Done {
        unit,
        id: 0,
        last: [0; 8],
        floor: 0,
        rows,
    };
    Ok(Msg::Done(Boxed::new(alloc, done)?))
}

/// Whether a message is a dump.
fn is_dump(message: Msg) -> bool {
    matches!(message, Msg::Dump(_))
}

/// Which unit a report is of.
fn unit_of(message: Msg) -> Option<u32> {
    match message {
        Msg::Done(done) => Some(done.get().unit),
        _ => None,
    }
}

#[test]
fn messages_go_to_other_threads(rt: HostRuntime) -> Result<(), Fail> {
    assert!(rt; is_dump(sent(dump(rt.alloc())?)));
    assert_eq!(rt; unit_of(sent(done(rt.alloc(), 3)?)), Some(3));
    Ok(())
}

/// Eight ids of two bits can be unwrapped from these numbers, and one of three bits is none.
#[test]
fn eight_ids(rt: HostRuntime) -> Result<(), Fail> {
    let width = Width::new(2).ok_or("two bits")?;
    let known = [0, 0, 1, 3, 4, 5, 100, 1001];
    let wids = [
        Wid { raw: 0 },
        Wid { raw: 3 },
        Wid { raw: 0 },
        Wid { raw: 3 },
        Wid { raw: 3 },
        Wid { raw: 1 },
        Wid { raw: 3 },
        Wid { raw: 2 },
    ];
    if !are_wids(width, &wids) || !have_room(width, &known) {
        return Err("eight ids".into());
    }
    assert!(rt; !is_wid(width, Wid { raw: 4 }));
    assert!(rt; has_room(width, u64::MAX - 4));
    assert!(rt; !has_room(width, u64::MAX - 3));
    Ok(())
}
