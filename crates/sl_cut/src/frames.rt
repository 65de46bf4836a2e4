// Plain frames of packets.
ghost use Rattle.std.specs.Prelude.{◌≡◌, IfOk};
ghost use Rattle.sl_model.specs.Frame.{plain_frame};

use sl_machine::Memory;
use sl_net::{Bytes, Packet};
use std::alloc::Global;

/// The plain frame of a packet.
#[tactic(auto, unfolding(sl_model::specs::Frame::plain_frame))]
pub fn plain_frame(alloc: Global, packet: Packet) -> Result<Bytes, Memory>
    ensures { IfOk result (λ frame. frame ≡ plain_frame packet) }
{
    let (src, dst, seq, len) = (packet.src, packet.dst, packet.seq, packet.len);
    let frame = [
        0,
        0,
        0,
        0,
        (src / 256) as u8,
        (src % 256) as u8,
        (dst / 256) as u8,
        (dst % 256) as u8,
        (seq / 65536 / 256) as u8,
        (seq / 65536 % 256) as u8,
        (seq % 65536 / 256) as u8,
        (seq % 65536 % 256) as u8,
        (len / 256) as u8,
        (len % 256) as u8,
        packet.hops,
        1,
        0,
        0,
        0,
        0,
        0,
        0,
        0,
        0,
    ];
    Ok(Bytes {
        items: Vec::from_slice(alloc, &frame)?,
    })
}
