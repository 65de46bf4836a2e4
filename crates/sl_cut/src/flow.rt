// What a host sends: the packets of its flows, then its raw frames.
ghost use Rattle.std.specs.Prelude.{◌≡◌, map, filter, slice_get, IfOk, ◌==◌};
ghost use Rattle.sl_model.specs.Setup.{setup_of, frames_of};
ghost use Rattle.sl_flow.specs.Flow.{HaveAddresses};

use crate::frames::plain_frame;
use crate::message::copy_bytes;
use sl_flow::packets_of;
use sl_machine::Memory;
use sl_net::{Bytes, Input, RawPart};
use std::alloc::Global;

/// The raw frame at a place among those of a host, if there is one.
fn find_raw(
    alloc: Global,
    raws: &[RawPart],
    host: u32,
    place: usize,
) -> Result<Option<Bytes>, Memory>
    ensures { IfOk result
        (λ frame. frame ≡ slice_get (map (λ r. r.bytes) (filter (λ r. r.from == host) raws.now))
        place) }
{
    let mut left = place;
    for raw in raws {
        if raw.from == host {
            if left == 0 {
                return Ok(Some(copy_bytes(alloc, &raw.bytes)?));
            }
            left -= 1;
        }
    }
    Ok(None)
}

/// The frame at a place among those that a host sends, if there is one.
pub fn frame_at(
    alloc: Global,
    input: &Input,
    host: u32,
    place: usize,
) -> Result<Option<Bytes>, Memory>
    requires { HaveAddresses input.now.flows }
    ensures { IfOk result (λ frame. frame ≡ slice_get (frames_of (setup_of input.now) host) place) }
{
    let packets = packets_of(alloc, host, &input.flows)?;
    match packets.get(place) {
        Some(packet) => Ok(Some(plain_frame(alloc, *packet)?)),
        None => find_raw(alloc, &input.raws, host, place - packets.len()),
    }
}
