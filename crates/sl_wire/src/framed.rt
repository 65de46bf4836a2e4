// Trusted types: for nodes Framed.
// A frame in a message.
ghost use Rattle.std.specs.Prelude.{◌≡◌, ◌≢◌, ◌+◌, ◌≤◌, ◌/◌, ◌%◌, ℕ, length, slice_index};
ghost use Rattle.std.specs.Prelude.{slice_range, Some};
ghost use Rattle.sl_wire.specs.Frames.{kind_of, id_in, check_in, packet_fits, packet_of};
ghost use Rattle.sl_wire.specs.Frames.{reserved_in, all_zero, kind_decoded, frame, plain_frame};
ghost use Rattle.sl_wire.specs.Frames.{decoded, word};
ghost use Rattle.sl_wire.specs.Framed.{first, second, third, fourth};

use crate::columns::{channel_fits, check_of, kind_byte, kind_of, stamp_fits};
use crate::frame::{Frame, Header, Kind, WireFault};
use sl_ids::{Wid, Width};
use sl_net::Packet;
use std::marker::Model;

/// A frame as three numbers of 64 bits, each of eight of its bytes, so that a message, which may be
/// a frame, is made, moved and read in whole words. Contracts see the frame.
#[derive(Debug, Drop)]
pub struct Framed {
    front: u64,
    middle: u64,
    back: u64,
}

impl Model for Framed {
    ghost use Rattle.sl_wire.specs.declared.frame.Frame.{Frame};
    ghost use Rattle.sl_wire.specs.Framed.{frame_in};

    ghost Value = { Frame };

    ghost view = { λ a. frame_in a.front a.middle a.back };
}

#[inline(always)]
fn first(word: u64) -> u16
    ensures { result ≡ first word }
{
    (word / 281_474_976_710_656) as u16
}

#[inline(always)]
fn second(word: u64) -> u16
    ensures { result ≡ second word }
{
    (word / 4_294_967_296 % 65536) as u16
}

#[inline(always)]
fn third(word: u64) -> u16
    ensures { result ≡ third word }
{
    (word / 65536 % 65536) as u16
}

#[inline(always)]
fn fourth(word: u64) -> u16
    ensures { result ≡ fourth word }
{
    (word % 65536) as u16
}

/// The number of these four parts.
#[inline(always)]
fn joined(a: u16, b: u16, c: u16, d: u16) -> u64
    ensures first { first result ≡ a }
    ensures second { second result ≡ b }
    ensures third { third result ≡ c }
    ensures fourth { fourth result ≡ d }
{
    u64::from(a) * 281_474_976_710_656
        + u64::from(b) * 4_294_967_296
        + u64::from(c) * 65536
        + u64::from(d)
}

/// The eight bytes from a place on as one number.
fn eight(bytes: &[u8], at: usize) -> u64
    requires { at + 8 ≤ length bytes.now }
    ensures { result ≡ word bytes.now at }
{
    u64::from_be_bytes([
        bytes[at],
        bytes[at + 1],
        bytes[at + 2],
        bytes[at + 3],
        bytes[at + 4],
        bytes[at + 5],
        bytes[at + 6],
        bytes[at + 7],
    ])
}

/// A part of two bytes.
#[inline(always)]
fn pair(high: u8, low: u8) -> u16
    ensures high { result / 256 ≡ high }
    ensures low { result % 256 ≡ low }
{
    u16::from(high) * 256 + u16::from(low)
}

impl Framed {
    /// These bytes.
    pub fn new(bytes: &[u8]) -> Framed
        requires { length bytes.now ≡ 24 }
        ensures { result.bytes ≡ bytes.now }
    {
        Framed {
            front: eight(bytes, 0),
            middle: eight(bytes, 8),
            back: eight(bytes, 16),
        }
    }

    /// The frame of any header and packet in any version.
    #[inline(always)]
    pub fn of(version: u8, header: &Header, packet: &Packet) -> Framed
        ensures { result.bytes ≡ frame version header.now packet.now }
    {
        let id = header.id.raw;
        let begin = pair(kind_byte(header.kind), header.channel);
        let end = pair(packet.hops, version);
        let upper = (packet.seq / 65536) as u16;
        let lower = (packet.seq % 65536) as u16;
        Framed {
            front: joined(begin, id, packet.src, packet.dst),
            middle: joined(upper, lower, packet.len, end),
            back: joined(check_of(version, id), 0, 0, 0),
        }
    }

    /// The plain frame of a packet.
    #[inline(always)]
    pub fn plain(packet: &Packet) -> Framed
        ensures { result.bytes ≡ plain_frame packet.now }
    {
        let header = Header {
            kind: Kind::Plain,
            id: Wid { raw: 0 },
            channel: 0,
        };
        Framed::of(1, &header, packet)
    }

    /// The same frame once more.
    #[inline(always)]
    pub fn again(&self) -> Framed
        ensures { result ≡ self.now }
    {
        Framed {
            front: self.front,
            middle: self.middle,
            back: self.back,
        }
    }

    /// The frame by its bytes.
    pub fn frame(&self) -> Frame
        ensures { result ≡ self.now }
    {
        let parts = [
            first(self.front),
            second(self.front),
            third(self.front),
            fourth(self.front),
            first(self.middle),
            second(self.middle),
            third(self.middle),
            fourth(self.middle),
            first(self.back),
            second(self.back),
            third(self.back),
            fourth(self.back),
        ];
        let bytes = [
            high(parts[0]),
            low(parts[0]),
            high(parts[1]),
            low(parts[1]),
            high(parts[2]),
            low(parts[2]),
            high(parts[3]),
            low(parts[3]),
            high(parts[4]),
            low(parts[4]),
            high(parts[5]),
            low(parts[5]),
            high(parts[6]),
            low(parts[6]),
            high(parts[7]),
            low(parts[7]),
            high(parts[8]),
            low(parts[8]),
            high(parts[9]),
            low(parts[9]),
            high(parts[10]),
            low(parts[10]),
            high(parts[11]),
            low(parts[11]),
        ];
        Frame { bytes }
    }

    /// What it is read as: the version, header and packet of which it is the frame, or the first
    /// fault of E2 to E5.
    #[inline(always)]
    #[tactic(auto, unfolding(crate::specs::Frames::decoded))]
    pub fn decode(&self, width: Width) -> Result<(u8, Header, Packet), WireFault>
        ensures { result ≡ decoded width.bits self.now.bytes }
    {
        match self.kind() {
            None => Err(WireFault::E2),
            Some(Kind::Plain) => self.decode_plain(),
            Some(kind) => self.decode_stamped(width, kind),
        }
    }

    /// What it says where it is a plain frame.
    #[inline(always)]
    fn decode_plain(&self) -> Result<(u8, Header, Packet), WireFault>
        ensures { (bits : ℕ) → result ≡ kind_decoded bits self.now.bytes (Some Kind.Plain) }
    {
        if self.version() != 1 {
            return Err(WireFault::E2);
        }
        if self.id() != 0 {
            return Err(WireFault::E3);
        }
        if self.channel() != 0 || !self.is_reserved(1) {
            return Err(WireFault::E4);
        }
        let header = Header {
            kind: Kind::Plain,
            id: Wid { raw: 0 },
            channel: 0,
        };
        Ok((1, header, self.packet()))
    }

    /// What it says where it is of a kind with an id.
    #[inline(always)]
    fn decode_stamped(&self, width: Width, kind: Kind) -> Result<(u8, Header, Packet), WireFault>
        requires { kind ≢ Kind.Plain }
        ensures { result ≡ kind_decoded width.bits self.now.bytes (Some kind) }
    {
        let version = self.version();
        if version != 1 && version != 2 {
            return Err(WireFault::E2);
        }
        let raw = self.id();
        if !stamp_fits(width, version, raw) {
            return Err(WireFault::E3);
        }
        let channel = self.channel();
        if !channel_fits(kind, channel) || !self.packet_fits(kind) || !self.is_reserved(version) {
            return Err(WireFault::E4);
        }
        if version == 2 && self.check() != 65535 - raw {
            return Err(WireFault::E5);
        }
        let header = Header {
            kind,
            id: Wid { raw },
            channel,
        };
        Ok((version, header, self.packet()))
    }

    fn kind(&self) -> Option<Kind>
        ensures kind { result ≡ kind_of (slice_index self.now.bytes 0) }
        ensures length { length self.now.bytes ≡ 24 }
    {
        kind_of(high(first(self.front)))
    }

    fn channel(&self) -> u8
        ensures { result ≡ slice_index self.now.bytes 1 }
    {
        low(first(self.front))
    }

    fn id(&self) -> u16
        ensures { result ≡ id_in self.now.bytes }
    {
        second(self.front)
    }

    fn version(&self) -> u8
        ensures { result ≡ slice_index self.now.bytes 15 }
    {
        low(fourth(self.middle))
    }

    fn check(&self) -> u16
        ensures { result ≡ check_in self.now.bytes }
    {
        first(self.back)
    }

    #[inline(always)]
    fn packet(&self) -> Packet
        ensures { result ≡ packet_of self.now.bytes }
    {
        Packet {
            src: third(self.front),
            dst: fourth(self.front),
            seq: (self.middle / 4_294_967_296) as u32,
            len: third(self.middle),
            hops: high(fourth(self.middle)),
        }
    }

    fn packet_fits(&self, kind: Kind) -> bool
        ensures { result ≡ packet_fits kind self.now.bytes }
    {
        match kind {
            Kind::Plain | Kind::Carried => true,
            Kind::Probe | Kind::Init => self.has_no_packet(),
        }
    }

    /// Whether the bytes of a packet are 0.
    fn has_no_packet(&self) -> bool
        ensures { result ≡ all_zero (slice_range self.now.bytes 4 15) }
    {
        self.front % 4_294_967_296 == 0 && self.middle / 256 == 0
    }

    /// Whether the bytes after the version, and after the check of version 2, are 0.
    #[inline(always)]
    fn is_reserved(&self, version: u8) -> bool
        ensures { result ≡ all_zero (reserved_in version self.now.bytes) }
    {
        if version == 2 {
            self.back % 281_474_976_710_656 == 0
        } else {
            self.back == 0
        }
    }
}

#[inline(always)]
fn high(part: u16) -> u8
    ensures { result ≡ part / 256 }
{
    (part / 256) as u8
}

#[inline(always)]
fn low(part: u16) -> u8
    ensures { result ≡ part % 256 }
{
    (part % 256) as u8
}
