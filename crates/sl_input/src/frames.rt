// The packets of raw frames.
ghost use Rattle.std.specs.Prelude.{◌≡◌, ◌+◌, ◌<◌, length};
ghost use Rattle.sl_model.specs.Frame.{packet_of, is_plain, packet_at, number_at, all_zero};

use sl_net::{Bytes, Packet};

fn all_zero(bytes: &[u8]) -> bool
    ensures { result ≡ all_zero bytes.now }
{
    for byte in bytes {
        if *byte != 0 {
            return false;
        }
    }
    true
}

fn is_plain(bytes: &[u8]) -> bool
    ensures { result ≡ is_plain bytes.now }
{
    bytes.len() == 24 && all_zero(&bytes[..4]) && bytes[15] == 1 && all_zero(&bytes[16..])
}

fn number_at(bytes: &[u8], place: usize) -> u16
    requires { place + 1 < length bytes.now }
    ensures { result ≡ number_at bytes.now place }
{
    256 * bytes[place] as u16 + bytes[place + 1] as u16
}

fn packet_at(bytes: &[u8]) -> Packet
    requires { length bytes.now ≡ 24 }
    ensures { result ≡ packet_at bytes.now }
{
    Packet {
        src: number_at(bytes, 4),
        dst: number_at(bytes, 6),
        seq: 65536 * number_at(bytes, 8) as u32 + number_at(bytes, 10) as u32,
        len: number_at(bytes, 12),
        hops: bytes[14],
    }
}

/// The packet whose plain frame the bytes are, if there is one.
#[tactic(auto, unfolding(sl_model::specs::Frame::packet_of))]
pub fn packet_of(bytes: &Bytes) -> Option<Packet>
    ensures { result ≡ packet_of bytes.now }
{
    let bytes = bytes.items.as_slice();
    if is_plain(bytes) {
        Some(packet_at(bytes))
    } else {
        None
    }
}
