// Trusted types: for nodes Kind, Header, Frame.
// Frames as bytes, and bytes as frames.
ghost use Rattle.std.specs.Prelude.{◌≡◌, ℕ, IfOk, Ok};
ghost use Rattle.sl_wire.specs.Frames.{frame, plain_header, plain_frame, decoded, IsCanonical};
ghost use Rattle.sl_wire.specs.Frames.{IsFrame};

use crate::framed::Framed;
use sl_ids::{Wid, Width};
use sl_net::Packet;

/// What a frame is.
#[derive(Clone, Copy, Debug, PartialEq, Eq)]
pub enum Kind {
    /// A frame from a host or to it.
    Plain,
    /// A data packet between units.
    Carried,
    /// A probe between units.
    Probe,
    /// An initiation from a control plane.
    Init,
}

/// The snapshot header of a frame.
#[derive(Clone, Copy, Debug, PartialEq, Eq)]
pub struct Header {
    /// What the frame is.
    pub kind: Kind,
    /// The wrapped id of its sender, 0 in a plain frame.
    pub id: Wid,
    /// The sender's port, 0 in a plain frame and 255 in an initiation.
    pub channel: u8,
}

/// A frame.
#[derive(Clone, Copy, Debug, PartialEq, Eq)]
pub struct Frame {
    /// The bytes in order.
    pub bytes: [u8; 24],
}

/// Why bytes are no frame.
#[derive(Clone, Copy, Debug, PartialEq, Eq)]
pub enum WireFault {
    /// There are not 24 bytes.
    E1,
    /// Byte 0 is no kind, or byte 15 is no version that the kind has.
    E2,
    /// The id has more bits than ids have or than the version carries, or is not 0 in a plain frame.
    E3,
    /// Another byte, but for the check of version 2, has a value that the kind and the version don't
    /// allow.
    E4,
    /// The check of version 2 is not 65535 less the id.
    E5,
}

/// The bytes of the header and the packet in this version of the frame.
#[tactic(auto, unfolding(crate::specs::Frames::frame))]
pub fn encode(width: Width, version: u8, header: &Header, packet: &Packet) -> Frame
    requires { IsCanonical width.bits version header.now packet.now }
    ensures frame { IsFrame width.bits result.bytes version header.now packet.now }
    ensures back { decoded width.bits result.bytes ≡ Ok (version, header.now, packet.now) }
{
    frame_of(version, header, packet)
}

/// The plain frame of a packet. It is the same at each width of ids.
pub fn plain_frame(packet: &Packet) -> Frame
    ensures bytes { result.bytes ≡ plain_frame packet.now }
    ensures frame { (bits : ℕ) → IsFrame bits result.bytes 1 plain_header packet.now }
{
    let header = Header {
        kind: Kind::Plain,
        id: Wid { raw: 0 },
        channel: 0,
    };
    frame_of(1, &header, packet)
}

/// The version, header and packet of which the bytes are the frame, or the first fault of E1 to E5.
#[tactic(auto, unfolding(crate::specs::Frames::decoded))]
pub fn decode(width: Width, bytes: &[u8]) -> Result<(u8, Header, Packet), WireFault>
    ensures value { result ≡ decoded width.bits bytes.now }
    ensures frame { IfOk result (λ read. IsFrame width.bits bytes.now read.0 read.1 read.2) }
{
    if bytes.len() != 24 {
        return Err(WireFault::E1);
    }
    Framed::new(bytes).decode(width)
}

/// The bytes of any header and packet in any version.
pub fn frame_of(version: u8, header: &Header, packet: &Packet) -> Frame
    ensures { result.bytes ≡ frame version header.now packet.now }
{
    Framed::of(version, header, packet).frame()
}
